// What a running train is, the book that is kept beside it, and demand 3: distance, book and filling order. It has definitions and
// proofs, and no code.
#![tactic(auto)]

use base::MOST_CARS;

// The cars that a train holds, in the first `held` places of four rows: number, grade, gross and net in kg; grade 0 is a car that was
// refused, and has no masses.
#[derive(Clone, Copy)]
pub struct HeldCars {
    pub held: u32,
    pub numbers: [u32; MOST_CARS],
    pub grades: [u32; MOST_CARS],
    pub grosses: [u32; MOST_CARS],
    pub nets: [u32; MOST_CARS],
}
