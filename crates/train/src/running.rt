// The running train: empty, with one car more entered, and with one struck.
ghost use Rattle.std.specs.Prelude.{◌≡◌, List, ◌≤◌};
ghost use Rattle.base.specs.Limits.{most_cars};
ghost use Rattle.base.specs.Answer.{first};
ghost use Rattle.base.specs.Refusal.{verdict_told, figure_told};
ghost use Rattle.table.specs.Layout.{tables_in};
ghost use Rattle.car.specs.Car.{measured, measured_of, Intake, dipped, car_told};
ghost use Rattle.car.specs.Inner.{Stands};
ghost use Rattle.consist.specs.Train.{empty_train, enter_answer, enter_train, strike_answer, strike_train};
ghost use Rattle.consist.specs.Book.{Item};
ghost use Rattle.consist.specs.Book.{car as carItem};
ghost use Rattle.consist.specs.Book.{strike as strikeItem};
ghost use Rattle.consist.specs.Demand3.{Close, Reconciled, Continues, InOrder};
ghost use Rattle.consist.specs.Examples.{BookExample, GradesExample};
ghost use Rattle.consist.specs.Inner.{bar_tests};
ghost use Rattle.consist.specs.Lent.{tallied, train_in};
ghost use Rattle.consist.specs.HandedInExamples.{EnterOrder, StrikeOrder};
ghost use Rattle.consist.specs.StrikeExamples.{StrikesExample};
ghost use Rattle.train.specs.Told.{train_told};

use crate::{Step, StrikeStep, Train};
use base::{GRADES, MOST_CARS, Refusal};
use car::{Car, Figures, HandedIn};
use consist::HeldCars;
use summing::{Sums, Totals};
use table::Tables;

// 7 and 8 of the tables, then 9 of a train that is not sound.
fn check_bar(tables: &Tables<'_>, sums: Sums, cars: &HeldCars) -> Result<(), Refusal>
    ensures { verdict_told result ≡ first (bar_tests (tables_in tables.now) (tallied sums cars.now)) }
{
    tabletests::check_tables(tables)?;
    if train_audit::is_unsound(sums, cars) {
        return Err(Refusal::Count);
    }
    Ok(())
}

// Enters a car, dipped or a probe's, to which nothing applies that stands before all other tests: its answer.
pub fn enter_handed_in(
    train: &mut Train,
    tables: &Tables<'_>,
    car: HandedIn,
) -> Result<Figures, Refusal>
    ensures answered { (h : Intake) → Stands car h → car_told result ≡ enter_answer (tables_in tables.now) (train_told train.old) h }
    ensures entered { (h : Intake) → Stands car h → train_told train.new ≡ enter_train (tables_in tables.now) (train_told train.old) h }
    ensures kept { (h : Intake) → Stands car h →
        Close (tables_in tables.now) (measured_of h) (car_told result)
        × InOrder (tables_in tables.now) (measured_of h) (car_told result)
        × Continues (train_told train.old) (carItem (tables_in tables.now) h) (car_told result) (train_told train.new) }
{
    check_bar(tables, train.sums, &train.cars)?;
    let expansion = thermal_stored::expansion(car.measured.density);
    let answer = entering::enter_on(&mut train.cars, tables, car, expansion);
    train.sums = train_audit::made_by(&train.cars);
    answer
}

impl Train {
    // A train with no cars.
    pub fn empty() -> Train
        ensures { (train_told result ≡ empty_train) × ((items : List Item) → Reconciled items) × BookExample × GradesExample × StrikesExample }
    {
        let none = Totals {
            accepted: 0,
            gross: 0,
            net: 0,
        };
        Train {
            sums: Sums {
                all: none,
                grades: [none; GRADES],
            },
            cars: HeldCars {
                held: 0,
                numbers: [0; MOST_CARS],
                grades: [0; MOST_CARS],
                grosses: [0; MOST_CARS],
                nets: [0; MOST_CARS],
            },
        }
    }

    // Enters a car with its tables: its answer, and the train to hand in with the next.
    pub fn enter(mut self, tables: &Tables<'_>, car: Car) -> Step
        ensures { (car_told result.answer ≡ enter_answer (tables_in tables.now) (train_told self) (dipped car))
            × (train_told result.train ≡ enter_train (tables_in tables.now) (train_told self) (dipped car))
            × Close (tables_in tables.now) (measured car) (car_told result.answer)
            × InOrder (tables_in tables.now) (measured car) (car_told result.answer)
            × Continues (train_told self) (carItem (tables_in tables.now) (dipped car)) (car_told result.answer) (train_told result.train)
            × EnterOrder }
    {
        let answer = enter_handed_in(&mut self, tables, working::dipped(car));
        Step {
            answer,
            train: self,
        }
    }

    // Strikes the car of a number: its answer, and the train to hand in next.
    pub fn strike(mut self, number: u32) -> StrikeStep
        ensures { (figure_told result.answer ≡ strike_answer (train_told self) number)
            × (train_told result.train ≡ strike_train (train_told self) number)
            × Continues (train_told self) (strikeItem number) (figure_told result.answer) (train_told result.train)
            × StrikeOrder }
    {
        if train_audit::is_unsound(self.sums, &self.cars) {
            return StrikeStep {
                answer: Err(Refusal::Count),
                train: self,
            };
        }
        let answer = train_strike::strike_on(&mut self.cars, number);
        self.sums = train_audit::made_by(&self.cars);
        StrikeStep {
            answer,
            train: self,
        }
    }
}
