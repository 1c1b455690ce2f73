// The stick compared with the tape for C and Rust: on numbers and slices, as in `exported_cars`.
#![tactic(auto)]

ghost use Rattle.std.specs.Prelude.{◌≡◌, length};
ghost use Rattle.comparison.specs.Answers.{check_answer, check_told};
ghost use Rattle.marshalling.specs.Handed.{sized, Handed, figures_left};
ghost use Rattle.exported_comparison.specs.Layout.{figure_count, check_sized};

use base::Refusal;
use comparison::{Comparison, TAPE_READINGS};
use marshalling::BAD_LENGTH;

// How many numbers are shown.
const FIGURES: usize = 4;

// Hands an answer over: 1 for a negative difference and 0 for any other, its size, 1 for a pass and 0 for none, the allowance; or the refusal.
fn hand_over(answer: Result<Comparison, Refusal>, figures: &mut [u32]) -> u32
    requires { length figures.old ≡ figure_count }
    ensures { Handed figures_left (check_told answer) result figures.old figures.new }
{
    match answer {
        Ok(x) => {
            let difference = x.difference;
            let negative = u32::from(difference.negative);
            let passes = u32::from(x.passes);
            figures.copy_from_slice(&[negative, difference.size, passes, x.allowance]);
            0
        }
        Err(refusal) => refusal.number(),
    }
}

// The stick level, in tenths of a mm, beside the first `count` of twenty readings in mm.
#[tactic(auto, using(base::proofs::Tests::tests, marshalling::proofs::Handed::handed_as, marshalling::proofs::Handed::right_sized, marshalling::proofs::Handed::wrong_sized), unfolding(crate::specs::Layout::check_sized))]
#[unsafe(no_mangle)]
pub extern "C" fn rack_stick_against_tape(
    stick: u64,
    count: u32,
    readings: &[u32],
    figures: &mut [u32],
) -> u32
    ensures { Handed figures_left (sized (check_sized readings.now figures.old) (check_answer stick count readings.now))
        result figures.old figures.new }
{
    if readings.len() != TAPE_READINGS || figures.len() != FIGURES {
        return BAD_LENGTH;
    }
    let places = *marshalling::array_of(readings);
    hand_over(comparing::stick_against_tape(stick, count, places), figures)
}
