// The terms of the permitted error, the limit, and whether it is within what is allowed, in 64-bit arithmetic, each equal to its
// definition in `accuracy`. Terms are in 0.0001 %.
#![tactic(auto)]

ghost use Rattle.std.specs.Prelude.{◌≡◌, false, ◌≤◌};
ghost use Rattle.base.specs.Answer.{first};
ghost use Rattle.base.specs.Refusal.{verdict_told};
ghost use Rattle.table.specs.Table.{later_row_bad};
ghost use Rattle.gauging.specs.Inner.{gap_of};
ghost use Rattle.heating.specs.Limits.{highest_temperature};
ghost use Rattle.heating.specs.Inner.{most_expansion};
ghost use Rattle.accuracy.specs.Terms;
ghost use Rattle.accuracy.specs.Terms.{sum_of_squares};
ghost use Rattle.accuracy.specs.Limit.{IsLimit, within};
ghost use Rattle.accuracy.specs.Permitted.{
  most_share,
  most_temperature_error,
  most_level_error,
  most_level_term,
  error_tests,
};
ghost use Rattle.accuracy.specs.Inner.{
  ErrorsInRange,
  most_temperature_term,
  most_density_factor,
  most_sum,
  most_limit,
};

use accuracy::Errors;
use base::Refusal;
use gauging::Neighbours;
use thermal::UNITY;

// The most of an error in 0.0001 %, of a temperature error in 0.1 °C, of the level error in 0.1 mm, and of the level term.
const MOST_SHARE: u32 = 10_000;

const MOST_TEMPERATURE_ERROR: u32 = 20;

const MOST_LEVEL_ERROR: u32 = 100;

pub const MOST_LEVEL_TERM: u64 = 10_000;

// The limit of the greatest sum of squares.
const MOST_LIMIT: u64 = 22_789;

// 24.
pub fn check_errors(e: Errors) -> Result<(), Refusal>
    ensures { verdict_told result ≡ first (error_tests e) }
{
    if MOST_SHARE < e.capacity
        || MOST_SHARE < e.density
        || MOST_SHARE < e.processing
        || MOST_TEMPERATURE_ERROR < e.density_temperature
        || MOST_TEMPERATURE_ERROR < e.oil_temperature
        || MOST_LEVEL_ERROR < e.level
    {
        return Err(Refusal::GivenError);
    }
    Ok(())
}

// Of the level error, in 0.1 mm, between two neighbouring rows, for V0 in 0.01 dm³.
#[tactic(auto, unfolding(accuracy::specs::Terms::level_term))]
pub fn level_term(error: u32, rows: Neighbours, v0: u32) -> u64
    requires { (error ≤ most_level_error) × (later_row_bad (gap_of rows).low (gap_of rows).high ≡ false) }
    ensures { result ≡ Terms.level_term error (gap_of rows) v0 }
{
    let capacity_step = (rows.high_capacity - rows.low_capacity) as u64;
    let level_step = (rows.high_level - rows.low_level) as u64;
    base::round_half_up(
        10_000_000 * (error as u64) * capacity_step,
        level_step * (v0 as u64),
    )
}

// Of a temperature error, in 0.1 °C, with b for B.
#[tactic(auto, using(accuracy::proofs::Bounds::temperature_term_most), unfolding(accuracy::specs::Terms::temperature_term))]
fn temperature_term(b: u32, error: u32) -> u64
    requires { (b ≤ most_expansion) × (error ≤ most_temperature_error) }
    ensures { (result ≡ Terms.temperature_term b error) × (result ≤ most_temperature_term) }
{
    base::round_half_up(b as u64 * error as u64, 10_000)
}

// G, in millionths, for the oil temperature in 0.1 °C.
#[tactic(auto, using(accuracy::proofs::Bounds::density_factor_most), unfolding(accuracy::specs::Terms::density_factor))]
fn density_factor(b: u32, temperature: u32) -> u64
    requires { (b ≤ most_expansion) × (temperature ≤ highest_temperature) }
    ensures { (result ≡ Terms.density_factor b temperature) × (result ≤ most_density_factor) }
{
    let oil = b as u64 * temperature as u64;
    let reference = b as u64 * 150;
    base::round_half_up(1_000_000 * (UNITY + 2 * oil), UNITY + 2 * reference)
}

// A term times G, by R again.
#[tactic(auto, unfolding(accuracy::specs::Terms::times_factor))]
fn times_factor(term: u64, factor: u64) -> u64
    requires { (term ≤ most_share) × (factor ≤ most_density_factor) }
    ensures { result ≡ Terms.times_factor term factor }
{
    base::round_half_up(term * factor, 1_000_000)
}

// The sum of the squares of the six terms, for the level term.
pub fn sum_of_squares(e: Errors, level: u64, b: u32, temperature: u32) -> u64
    requires { ErrorsInRange e × (level ≤ most_level_term) × (b ≤ most_expansion) × (temperature ≤ highest_temperature) }
    ensures { (result ≡ sum_of_squares (Terms.terms e level b temperature)) × (result ≤ most_sum) }
{
    let factor = density_factor(b, temperature);
    let density = times_factor(e.density as u64, factor);
    let density_temperature = times_factor(temperature_term(b, e.density_temperature), factor);
    let oil_temperature = temperature_term(b, e.oil_temperature);
    let capacity = e.capacity as u64;
    let processing = e.processing as u64;
    capacity * capacity
        + level * level
        + density * density
        + density_temperature * density_temperature
        + oil_temperature * oil_temperature
        + processing * processing
}

// The limit for a sum of squares, found by halving the interval in which it lies, 15 times at most.
// The loop is a `while`, since both ends move: no `for` has that form.
pub fn limit_of(sum: u64) -> u32
    requires { sum ≤ most_sum }
    ensures { IsLimit sum result × (result ≤ most_limit) }
{
    let goal = 121 * sum;
    let mut low: u64 = 0;
    let mut high = MOST_LIMIT;
    while low < high {
        let middle = (low + high) / 2;
        if goal <= 100 * (middle * middle) {
            high = middle;
        } else {
            low = middle + 1;
        }
    }
    low as u32
}

// Whether a limit is within 0.65 % for a gross mass below 100 t, or 0.50 % from 100 t; gross in kg.
pub fn is_within(limit: u32, gross: u32) -> bool
    ensures { result ≡ within limit gross }
{
    if gross < 100_000 {
        return limit <= 6_500;
    }
    limit <= 5_000
}
