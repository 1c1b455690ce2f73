// Given errors handed in as a slice of numbers, and the answer on the permitted error handed over.
ghost use Rattle.std.specs.Prelude.{◌≡◌, length};
ghost use Rattle.accuracy.specs.Permitted.{errors_of, permitted_told};
ghost use Rattle.marshalling.specs.Handed.{Handed, figures_left};
ghost use Rattle.marshalling.specs.Layout.{error_count, permitted_count, permitted_sized};

use crate::tables;
use accuracy::{Errors, Permitted};
use base::Refusal;

// How many errors are given, and how many numbers are shown: six figures, the limit, and 1 or 0.
const ERRORS: usize = 6;

const PERMITTED: usize = 8;

// Whether the slices of a car of so many numbers, its tables, the errors and the figures have the lengths that they must have.
#[tactic(auto, using(base::proofs::Tests::tests), unfolding(crate::specs::Layout::permitted_sized))]
pub fn permitted_fits(
    fields: usize,
    types: &[u32],
    rows: &[u32],
    levels: &[u32],
    capacities: &[u32],
    car: &[u32],
    errors: &[u32],
    figures: &[u32],
) -> bool
    ensures { result ≡ permitted_sized fields types.now rows.now levels.now capacities.now car.now errors.now figures.now }
{
    car.len() == fields
        && errors.len() == ERRORS
        && figures.len() == PERMITTED
        && tables::tables_fit(types, rows, levels, capacities)
}

// The errors by their six numbers.
pub fn errors_of(numbers: &[u32]) -> Errors
    requires { length numbers.now ≡ error_count }
    ensures { result ≡ errors_of numbers.now }
{
    Errors {
        capacity: numbers[0],
        density: numbers[1],
        processing: numbers[2],
        density_temperature: numbers[3],
        oil_temperature: numbers[4],
        level: numbers[5],
    }
}

// Hands an answer over: six figures, the limit, and 1 where it is within, 0 where not; or the refusal.
pub fn hand_over_limit(answer: Result<Permitted, Refusal>, figures: &mut [u32]) -> u32
    requires { length figures.old ≡ permitted_count }
    ensures { Handed figures_left (permitted_told answer) result figures.old figures.new }
{
    match answer {
        Ok(p) => {
            let f = p.figures;
            let within = u32::from(p.within);
            figures.copy_from_slice(&[
                f.number, f.level, f.v0, f.v15, f.gross, f.net, p.limit, within,
            ]);
            0
        }
        Err(refusal) => refusal.number(),
    }
}
