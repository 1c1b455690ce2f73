// The tape allowance (002, 14.1.1), by the rule of GOST 7502. Levels are in tenths of a mm.
#![tactic(auto)]

ghost use Rattle.std.specs.Prelude.{◌≡◌};
ghost use Rattle.base.specs.Refusal.{figure_told};
ghost use Rattle.dip.specs.Tape.{off_tape, allowance_answer};
ghost use Rattle.dip.specs.Formula.{FormulaRight};

use base::{HIGHEST_LEVEL, Refusal, TENTHS};

// The highest level that a tape takes, and a metre.
const HIGHEST: u64 = TENTHS * HIGHEST_LEVEL as u64;

const METRE: u64 = TENTHS * 1_000;

// Hundredths of a millimetre, for the first metre begun and for each further one.
const FIRST_METRE: u64 = 30;

const FURTHER_METRE: u64 = 15;

// Whether a level is outside 1 to 3,600 mm.
fn is_off_tape(level: u64) -> bool
    ensures { result ≡ off_tape level }
{
    level < TENTHS || HIGHEST < level
}

// The tape allowance in 0.01 mm for a level of 10 to 36,000 tenths; refusal 16 for any other.
pub fn tape_allowance(level: u64) -> Result<u32, Refusal>
    ensures { (figure_told result ≡ allowance_answer level) × FormulaRight level (figure_told result) }
{
    if is_off_tape(level) {
        return Err(Refusal::Level);
    }
    let further = (level - 1) / METRE;
    Ok((FIRST_METRE + FURTHER_METRE * further) as u32)
}
