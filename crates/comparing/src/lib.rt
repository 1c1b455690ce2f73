// The stick compared with the tape, request (f) of document 02. A stick level is in tenths of a mm, readings are in mm.
#![tactic(auto)]

ghost use Rattle.std.specs.Prelude.{◌≡◌, ◌≤◌};
ghost use Rattle.comparison.specs.Answers.{most_readings, given, count_bad, comparison_at, check_answer, check_told};
ghost use Rattle.comparison.specs.Told.{ToldOnly};
ghost use Rattle.comparison.specs.Exchange.{ExchangeRight};
ghost use Rattle.comparison.specs.Card.{ChecksRight};
ghost use Rattle.comparing.specs.Inner.{SumRight, TapeInRange, BothInRange, OnTape};

use base::{HIGHEST_LEVEL, Refusal, TENTHS};
use comparison::{Comparison, Difference, TAPE_READINGS};

// How many readings of the tape there may be.
const FEWEST_READINGS: u32 = 10;

const MOST_READINGS: u32 = TAPE_READINGS as u32;

// In 0.01 mm: a millimetre, and the most that stick level and mean may be apart.
const MILLIMETRE: u64 = 100;

const MOST_APART: u64 = 200;

// Whether so many readings are too few or too many.
fn is_count_bad(count: u32) -> bool
    ensures { result ≡ count_bad count }
{
    count < FEWEST_READINGS || MOST_READINGS < count
}

// The sum of the first `count` readings in mm; 29 where one of them is outside 1 to 3,600 mm.
fn sum_of(readings: [u32; TAPE_READINGS], count: u32) -> Result<u32, Refusal>
    requires { count ≤ most_readings }
    ensures { SumRight (given count readings) result }
{
    let given = &readings[..count as usize];
    let mut sum = 0;
    for &mm in given {
        if mm < 1 || HIGHEST_LEVEL < mm {
            return Err(Refusal::TapeReading);
        }
        sum += mm;
    }
    Ok(sum)
}

// The stick level beside m readings of the tape with their sum, and the tape allowance for it.
fn compare(stick: u64, sum: u32, m: u32, allowance: u32) -> Comparison
    requires { BothInRange stick sum m }
    ensures { result ≡ comparison_at stick sum m allowance }
{
    // stick level and mean, each times m, in parts of which `parts` make a mm
    let by_stick = stick as u32 * m;
    let by_tape = TENTHS as u32 * sum;
    let parts = TENTHS * m as u64;
    let negative = by_stick < by_tape;
    let apart = MILLIMETRE * base::difference(by_stick, by_tape) as u64;
    let passes = apart <= MOST_APART * parts;
    let size = base::round_half_up(apart, parts) as u32;
    Comparison {
        difference: Difference { negative, size },
        passes,
        allowance,
    }
}

// The same with the allowance, or 29 for a stick level that the tape does not take.
fn compare_on_tape(stick: u64, sum: u32, m: u32) -> Result<Comparison, Refusal>
    requires { TapeInRange sum m }
    ensures { OnTape stick sum m result }
{
    match tape::tape_allowance(stick) {
        Ok(allowance) => Ok(compare(stick, sum, m, allowance)),
        Err(_) => Err(Refusal::TapeReading),
    }
}

// The stick level beside the first `count` readings; 28 where these are too few or too many, else 29 where one of them is outside
// 1 to 3,600 mm or the stick level outside 10 to 36,000 tenths.
pub fn stick_against_tape(
    stick: u64,
    count: u32,
    readings: [u32; TAPE_READINGS],
) -> Result<Comparison, Refusal>
    ensures { (check_told result ≡ check_answer stick count readings) × ToldOnly stick count readings result × ExchangeRight stick count readings result × ChecksRight }
{
    if is_count_bad(count) {
        return Err(Refusal::TapeCount);
    }
    let sum = sum_of(readings, count)?;
    compare_on_tape(stick, sum, count)
}
