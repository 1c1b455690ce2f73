// The limits of temperature, and the tests of refusals 18 and 19.
ghost use Rattle.std.specs.Prelude.{◌≡◌, [], ◌∷◌};
ghost use Rattle.base.specs.Answer.{refuse_if, first};
ghost use Rattle.base.specs.Refusal.{refusal_number, verdict_told};
ghost use Rattle.base.specs.Numbers.{outside};
ghost use Rattle.heating.specs.Limits.{temperature_tests_any_grade, density_tests};

use base::Refusal;
use heating::{Density15, HIGHEST_DENSITY, LOWEST_DENSITY};

// The temperatures of every grade, in 0.1 °C.
const LOWEST_TEMPERATURE: u32 = 200;

pub const HIGHEST_TEMPERATURE: u32 = 900;

// The refusal, where x is not from low to high.
pub fn check_within(refusal: Refusal, low: u32, high: u32, x: u32) -> Result<(), Refusal>
    ensures { verdict_told result ≡ first (refuse_if (refusal_number refusal) (outside low high x) ∷ []) }
{
    if x < low || high < x {
        return Err(refusal);
    }
    Ok(())
}

// 19.
pub fn check_density(density: Density15) -> Result<(), Refusal>
    ensures { verdict_told result ≡ first (density_tests density.0) }
{
    check_within(Refusal::Density, LOWEST_DENSITY, HIGHEST_DENSITY, density.0)
}

// 18 for a temperature, in 0.1 °C, without a grade.
pub(crate) fn check_temperature_any_grade(temperature: u32) -> Result<(), Refusal>
    ensures { verdict_told result ≡ first (temperature_tests_any_grade temperature) }
{
    check_within(
        Refusal::Temperature,
        LOWEST_TEMPERATURE,
        HIGHEST_TEMPERATURE,
        temperature,
    )
}
