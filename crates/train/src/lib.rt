// A car worked out alone, and the running train.
#![tactic(auto)]

use base::Refusal;
use car::Figures;
use consist::HeldCars;
use summing::Sums;

mod alone; // alone.rt: a car by itself
mod probed; // probed.rt: the car of a portable probe
mod running; // running.rt: the running train

pub use alone::{work_alone, work_handed_in, work_out};
pub use probed::work_out_probe;
pub use running::enter_handed_in;

// The running train: its sums, and the cars it holds.
#[derive(Clone, Copy)]
pub struct Train {
    pub sums: Sums,
    pub cars: HeldCars,
}

// What entering a car gives: its answer, and the train with it entered.
#[derive(Clone, Copy)]
pub struct Step {
    pub answer: Result<Figures, Refusal>,
    pub train: Train,
}

// What striking a car gives: its answer, and the train without the car.
#[derive(Clone, Copy)]
pub struct StrikeStep {
    pub answer: Result<u32, Refusal>,
    pub train: Train,
}
