// The permitted error beside the mass of a car by itself: its refusals and its six figures, 24 and 25, then the limit.
#![tactic(auto)]

ghost use Rattle.std.specs.Prelude.{◌≡◌, ◌≤◌};
ghost use Rattle.table.specs.Layout.{tables_in};
ghost use Rattle.thermal_stored.specs.Inner.{LookedUp};
ghost use Rattle.car.specs.Measured.{v0};
ghost use Rattle.car.specs.Car.{measured, Intake, dipped};
ghost use Rattle.car.specs.Inner.{Passed};
ghost use Rattle.consist.specs.Demand3.{Close, InOrder};
ghost use Rattle.accuracy.specs.Permitted.{
  most_level_error,
  level_term_of,
  PermittedAnswer,
  OnlyAnswer,
  permitted_told,
};
ghost use Rattle.accuracy.specs.Shown.{ShownRight};
ghost use Rattle.accuracy.specs.Card.{PermittedRight};
ghost use Rattle.permitting.specs.Inner.{SixShown, AcceptedAs};

use accuracy::{Errors, Permitted};
use base::Refusal;
use car::{Car, Figures, Measured};
use table::Tables;
use terms::MOST_LEVEL_TERM;

mod probed; // probed.rt: the permitted error of a probe's car

pub use probed::permitted_error_probe;

// The level term of an accepted car of which m is measured, from its V0 (0.01 dm³), in 0.0001 %.
fn level_term_on(tables: &Tables<'_>, m: Measured, volume: u32, errors: Errors) -> u64
    requires { Passed (tables_in tables.now) m
        × (errors.level ≤ most_level_error)
        × (volume ≡ v0 (tables_in tables.now) m) }
    ensures { result ≡ level_term_of (tables_in tables.now) m errors }
{
    match capacity::rows_around(tables, m.kind, m.level) {
        Ok(rows) => terms::level_term(errors.level, rows, volume),
        Err(_) => 0,
    }
}

// The limit beside the six figures of an accepted car of which m is measured, with the B of its density, or the first of 24 and 25.
fn limit_beside(
    tables: &Tables<'_>,
    m: Measured,
    expansion: u32,
    six: Figures,
    errors: Errors,
) -> Result<Permitted, Refusal>
    requires { Passed (tables_in tables.now) m × SixShown (tables_in tables.now) m six × LookedUp m.density.0 expansion }
    ensures { (h : Intake) → AcceptedAs (tables_in tables.now) h m six → PermittedAnswer (tables_in tables.now) h errors (permitted_told result) }
{
    terms::check_errors(errors)?;
    if six.v0 == 0 {
        return Err(Refusal::LevelTerm);
    }
    let level = level_term_on(tables, m, six.v0, errors);
    if MOST_LEVEL_TERM < level {
        return Err(Refusal::LevelTerm);
    }
    let limit = terms::limit_of(terms::sum_of_squares(errors, level, expansion, m.temperature));
    Ok(Permitted {
        figures: six,
        limit,
        within: terms::is_within(limit, six.gross),
    })
}

// The refusals of the car alone, 24 and 25; or its six figures, the limit of the permitted error of its gross mass, in 0.0001 %, and
// whether that is within what is allowed.
#[tactic(auto, using(crate::proofs::Answered::car_first, accuracy::proofs::AgainstCard::permitted_right))]
pub fn permitted_error(tables: &Tables<'_>, car: Car, errors: Errors) -> Result<Permitted, Refusal>
    ensures { OnlyAnswer (tables_in tables.now) (dipped car) errors (permitted_told result)
        × ShownRight (tables_in tables.now) (dipped car) errors (permitted_told result)
        × Close (tables_in tables.now) (measured car) (permitted_told result)
        × InOrder (tables_in tables.now) (measured car) (permitted_told result)
        × PermittedRight }
{
    let car = working::dipped(car);
    let expansion = thermal_stored::expansion(car.measured.density);
    let six = train::work_alone(tables, car, expansion)?;
    limit_beside(tables, car.measured, expansion, six, errors)
}
