// Enters a car in a train whose cars lie in arrays that are lent.
#![tactic(auto)]

ghost use Rattle.std.specs.Prelude.{◌≡◌, ◌≤◌, ◌<◌};
ghost use Rattle.base.specs.Limits.{most_cars};
ghost use Rattle.base.specs.Answer.{first};
ghost use Rattle.base.specs.Refusal.{verdict_told};
ghost use Rattle.table.specs.Layout.{tables_in};
ghost use Rattle.table.specs.Inner.{GoodTables};
ghost use Rattle.thermal_stored.specs.Inner.{LookedUp};
ghost use Rattle.car.specs.Car.{Intake, car_told};
ghost use Rattle.car.specs.Inner.{Stands};
ghost use Rattle.summing.specs.Inner.{Graded};
ghost use Rattle.consist.specs.Train.{enter_answer, enter_train};
ghost use Rattle.consist.specs.Inner.{place_tests, SoundTrain, with_answer};
ghost use Rattle.consist.specs.Lent.{train_in};
ghost use Rattle.entering.specs.Load.{load_as};

use base::{MOST_CARS, Refusal};
use car::{Figures, HandedIn};
use consist::HeldCars;
use table::Tables;

// What a place holds beside the number: grade, gross and net in kg of an accepted car, else zeros.
#[derive(Clone, Copy)]
struct Load {
    grade: u32,
    gross: u32,
    net: u32,
}

// 9 to 11 for a car of this number, in a train whose sums are sound.
fn check_place(cars: &HeldCars, number: u32) -> Result<(), Refusal>
    ensures { verdict_told result ≡ first (place_tests cars.now.held cars.now.numbers number) }
{
    let held = cars.held as usize;
    if MOST_CARS <= held {
        return Err(Refusal::Count);
    }
    working::check_number(number)?;
    if base::holds(&cars.numbers, held, number) {
        return Err(Refusal::NumberHeld);
    }
    Ok(())
}

// What is held of a car beside its number, by its answer.
fn load_of(grade: u32, answer: Result<Figures, Refusal>) -> Load
    ensures { result ≡ load_as grade answer }
{
    match answer {
        Ok(f) => Load {
            grade,
            gross: f.gross,
            net: f.net,
        },
        Err(_) => Load {
            grade: 0,
            gross: 0,
            net: 0,
        },
    }
}

// The grade by which a car is held, dipped or a probe's.
fn grade_of(car: HandedIn) -> u32
    ensures { result ≡ car.measured.grade }
{
    car.measured.grade
}

// Holds a car of this number in the first free place: grade and masses beside it where it was accepted, else zeros.
fn hold(cars: &mut HeldCars, number: u32, grade: u32, answer: Result<Figures, Refusal>)
    requires { cars.old.held < most_cars }
    ensures few { cars.new.held ≤ most_cars }
    ensures held { Graded grade answer → train_in cars.new ≡ with_answer (train_in cars.old) number grade answer }
{
    let load = load_of(grade, answer);
    let place = cars.held as usize;
    cars.numbers[place] = number;
    cars.grades[place] = load.grade;
    cars.grosses[place] = load.gross;
    cars.nets[place] = load.net;
    cars.held += 1;
}

// Enters a car, with the B of its density, for a caller with many: 7 and 8 do not turn the tables away, and the train is known to be
// sound. Its sums are those that its cars make, and are not kept.
pub fn enter_on(
    cars: &mut HeldCars,
    tables: &Tables<'_>,
    car: HandedIn,
    expansion: u32,
) -> Result<Figures, Refusal>
    requires { SoundTrain (train_in cars.old) × GoodTables tables.now × LookedUp car.measured.density.0 expansion }
    ensures answered { (h : Intake) → Stands car h → car_told result ≡ enter_answer (tables_in tables.now) (train_in cars.old) h }
    ensures entered { (h : Intake) → Stands car h → train_in cars.new ≡ enter_train (tables_in tables.now) (train_in cars.old) h }
    ensures few { cars.new.held ≤ most_cars }
{
    check_place(cars, car.number)?;
    let answer = working::work_on(tables, car, expansion);
    hold(cars, car.number, grade_of(car), answer);
    answer
}
