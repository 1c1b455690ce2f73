// A car handed in as a slice of numbers, and its answer handed over.
ghost use Rattle.std.specs.Prelude.{◌≡◌, length};
ghost use Rattle.car.specs.Car.{probe_car_of, car_told};
ghost use Rattle.marshalling.specs.Handed.{Handed, figures_left};
ghost use Rattle.marshalling.specs.Layout.{probe_fields, figure_count, car_sized};

use crate::tables;
use base::Refusal;
use car::{Figures, ProbeCar};
use probe_spec::ProbeSet;

// How many numbers a probe's car has beside its set, and how many an accepted car shows.
pub const PROBE_FIELDS: usize = 7;

const FIGURES: usize = 6;

// Whether the slices of a car of so many numbers, its tables and its figures have the lengths that they must have.
#[tactic(auto, using(base::proofs::Tests::tests), unfolding(crate::specs::Layout::car_sized))]
pub fn car_fits(
    fields: usize,
    types: &[u32],
    rows: &[u32],
    levels: &[u32],
    capacities: &[u32],
    car: &[u32],
    figures: &[u32],
) -> bool
    ensures { result ≡ car_sized fields types.now rows.now levels.now capacities.now car.now figures.now }
{
    car.len() == fields
        && figures.len() == FIGURES
        && tables::tables_fit(types, rows, levels, capacities)
}

// A probe's car by its seven numbers and its set.
pub fn probe_car_of(numbers: &[u32], set: ProbeSet) -> ProbeCar
    requires { length numbers.now ≡ probe_fields }
    ensures { result ≡ probe_car_of numbers.now set }
{
    ProbeCar {
        number: numbers[0],
        kind: numbers[1],
        grade: numbers[2],
        stick: numbers[3],
        water_level: numbers[4],
        water: numbers[5],
        impurities: numbers[6],
        set,
    }
}

// Hands a car's answer over: its six figures, or the refusal.
pub fn hand_over(answer: Result<Figures, Refusal>, figures: &mut [u32]) -> u32
    requires { length figures.old ≡ figure_count }
    ensures { Handed figures_left (car_told answer) result figures.old figures.new }
{
    match answer {
        Ok(f) => {
            figures.copy_from_slice(&[f.number, f.level, f.v0, f.v15, f.gross, f.net]);
            0
        }
        Err(refusal) => refusal.number(),
    }
}
