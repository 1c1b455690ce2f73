// The sums that held cars make, and the test of a train that is handed in: whether 9 applies to it, but for the sixty numbers of a full one.
#![tactic(auto)]

ghost use Rattle.std.specs.Prelude.{◌≡◌, ◌+◌, ◌≤◌, ◌||◌, ltb, take};
ghost use Rattle.base.specs.Limits.{most_cars};
ghost use Rattle.summing.specs.Sums.{most_in_train, sums_of};
ghost use Rattle.consist.specs.Train.{Train, cars_from, shown_in, twice, unsound};
ghost use Rattle.consist.specs.Lent.{tallied};

use base::{GRADES, MOST_CARS};
use consist::HeldCars;
use summing::{Sums, Totals};

// The greatest total of a train, in kg.
const MOST_IN_TRAIN: u64 = 12_000_000;

// Whether one of the first n numbers stands among those before it.
fn repeats(numbers: &[u32; MOST_CARS], n: usize) -> bool
    requires { n ≤ most_cars }
    ensures { result ≡ twice (take n numbers.now) }
{
    for i in 0..n {
        if base::holds(numbers, i, numbers[i]) {
            return true;
        }
    }
    false
}

// The place of a grade among the totals by grade, which there may be too few of.
fn place_of(grade: u32) -> usize
    requires { 1 ≤ grade }
    ensures { grade ≡ 1 + result }
{
    grade as usize - 1
}

// The sums that the held cars make; a refused one, of grade 0, adds nothing.
pub fn made_by(cars: &HeldCars) -> Sums
    requires { cars.now.held ≤ most_cars }
    ensures { (t : Train) → t.grades ≡ cars.now.grades → t.grosses ≡ cars.now.grosses → t.nets ≡ cars.now.nets → result ≡ sums_of (shown_in (cars_from t 0 cars.now.held)) }
{
    let none = Totals {
        accepted: 0,
        gross: 0,
        net: 0,
    };
    let mut all = none;
    let mut of_grades = [none; GRADES];
    for i in 0..cars.held as usize {
        let grade = cars.grades[i];
        if grade != 0 {
            let gross = cars.grosses[i];
            let net = cars.nets[i];
            all = all.with_car(grade, gross, net);
            let place = place_of(grade);
            if place < GRADES {
                of_grades[place] = of_grades[place].with_car(grade, gross, net);
            }
        }
    }
    Sums {
        all,
        grades: of_grades,
    }
}

// Whether there are more than sixty accepted cars, or a total above the greatest.
fn is_over_limits(all: Totals) -> bool
    ensures { result ≡ (ltb most_cars all.accepted || ltb most_in_train all.gross || ltb most_in_train all.net) }
{
    MOST_CARS < all.accepted as usize || MOST_IN_TRAIN < all.gross || MOST_IN_TRAIN < all.net
}

// It holds more than sixty numbers or one twice, is over its limits, or its sums are not those of its cars, or of its grades.
pub fn is_unsound(sums: Sums, cars: &HeldCars) -> bool
    ensures { result ≡ unsound (tallied sums cars.now) }
{
    let held = cars.held as usize;
    if MOST_CARS < held {
        return true;
    }
    if repeats(&cars.numbers, held) {
        return true;
    }
    if is_over_limits(sums.all) {
        return true;
    }
    sums != made_by(cars) || !summing::adds_up(sums)
}
