// A car worked out alone.
ghost use Rattle.std.specs.Prelude.{◌≡◌, ◌++◌};
ghost use Rattle.base.specs.Answer.{first};
ghost use Rattle.base.specs.Refusal.{verdict_told};
ghost use Rattle.table.specs.Table.{tables_tests};
ghost use Rattle.table.specs.Layout.{tables_in};
ghost use Rattle.table.specs.TablesCard.{TablesRight};
ghost use Rattle.thermal_stored.specs.Inner.{LookedUp};
ghost use Rattle.car.specs.Car.{number_tests, measured, Intake, dipped, alone_answer, car_told};
ghost use Rattle.car.specs.Inner.{Stands};
ghost use Rattle.consist.specs.Demand3.{Close, InOrder};
ghost use Rattle.car.specs.Card.{AllRight};
ghost use Rattle.car.specs.OperationsCard.{OperationsRight};
ghost use Rattle.car.specs.ExactCard.{ExactRight};
ghost use Rattle.consist.specs.Examples.{OrderExample};

use base::Refusal;
use car::{Car, Figures, HandedIn};
use table::Tables;

// 7 and 8 of its tables and 10 of its number.
fn check_alone(tables: &Tables<'_>, number: u32) -> Result<(), Refusal>
    ensures { verdict_told result ≡ first (tables_tests (tables_in tables.now) ++ number_tests number) }
{
    tabletests::check_tables(tables)?;
    working::check_number(number)
}

// 7 and 8 of its tables, 10, then the first of 12 to 21, or its figures, for a caller that has the B of the car's density.
pub fn work_alone(tables: &Tables<'_>, car: HandedIn, expansion: u32) -> Result<Figures, Refusal>
    requires { LookedUp car.measured.density.0 expansion }
    ensures { (h : Intake) → Stands car h → car_told result ≡ alone_answer (tables_in tables.now) h }
{
    check_alone(tables, car.number)?;
    working::work_on(tables, car, expansion)
}

// The same, for any caller.
pub fn work_handed_in(tables: &Tables<'_>, car: HandedIn) -> Result<Figures, Refusal>
    ensures { (h : Intake) → Stands car h → car_told result ≡ alone_answer (tables_in tables.now) h }
{
    let expansion = thermal_stored::expansion(car.measured.density);
    work_alone(tables, car, expansion)
}

// A dipped car: 7 and 8 of its tables, 10, then the first of 12 to 21, or its figures.
pub fn work_out(tables: &Tables<'_>, car: Car) -> Result<Figures, Refusal>
    ensures { (car_told result ≡ alone_answer (tables_in tables.now) (dipped car))
        × Close (tables_in tables.now) (measured car) (car_told result)
        × InOrder (tables_in tables.now) (measured car) (car_told result)
        × AllRight × OperationsRight × TablesRight × ExactRight × OrderExample }
{
    work_handed_in(tables, working::dipped(car))
}
