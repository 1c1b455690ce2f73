// How a train lies in a slice of numbers: read from it, and written into it.
#![tactic(auto)]

ghost use Rattle.std.specs.Prelude.{◌≡◌, ◌+◌, ◌≤◌, length};
ghost use Rattle.base.specs.Buffer.{put};
ghost use Rattle.base.specs.Limits.{most_cars};
ghost use Rattle.consist.specs.Lent.{tallied};
ghost use Rattle.train.specs.Told.{train_told};
ghost use Rattle.trainslice.specs.Layout.{joined, totals_places, totals_at, totals_numbers, sums_places, train_places, row_at, train_of, sums_numbers, train_numbers};

use base::{GRADES, MOST_CARS};
use consist::HeldCars;
use summing::{Sums, Totals};
use train::Train;

// Totals: accepted cars, gross and net in kg, each as a low and a high half of 32 bits.
const TOTALS_PLACES: usize = 5;

// Of all cars and of each grade.
const SUMS_PLACES: usize = TOTALS_PLACES + GRADES * TOTALS_PLACES;

// Behind them how many cars the train holds, and a place for each: its numbers, its grades, its gross and its net masses.
pub const TRAIN_PLACES: usize = SUMS_PLACES + 1 + 4 * MOST_CARS;

// Where these four rows lie.
const NUMBERS: usize = SUMS_PLACES + 1;

const GRADES_HELD: usize = NUMBERS + MOST_CARS;

const GROSSES: usize = NUMBERS + 2 * MOST_CARS;

const NETS: usize = NUMBERS + 3 * MOST_CARS;

const HALF: u64 = 4_294_967_296;

// A number by its halves of 32 bits.
fn joined(low: u32, high: u32) -> u64
    ensures { result ≡ joined low high }
{
    u64::from(low) + HALF * u64::from(high)
}

// The totals that lie from `at` on.
fn totals_at(numbers: &[u32], at: usize) -> Totals
    requires { at + totals_places ≤ length numbers.now }
    ensures { result ≡ totals_at numbers.now at }
{
    Totals {
        accepted: numbers[at],
        gross: joined(numbers[at + 1], numbers[at + 2]),
        net: joined(numbers[at + 3], numbers[at + 4]),
    }
}

// The row of sixty that lies from `at` on.
fn row_at(numbers: &[u32], at: usize) -> [u32; MOST_CARS]
    requires { at + most_cars ≤ length numbers.now }
    ensures { result ≡ row_at numbers.now at }
{
    *marshalling::array_of(&numbers[at..at + MOST_CARS])
}

// The train that lies in a slice.
pub fn train_of(numbers: &[u32]) -> Train
    requires { length numbers.now ≡ train_places }
    ensures { train_told result ≡ train_of numbers.now }
{
    let sums = Sums {
        all: totals_at(numbers, 0),
        grades: [
            totals_at(numbers, TOTALS_PLACES),
            totals_at(numbers, 2 * TOTALS_PLACES),
            totals_at(numbers, 3 * TOTALS_PLACES),
            totals_at(numbers, 4 * TOTALS_PLACES),
        ],
    };
    let cars = HeldCars {
        held: numbers[SUMS_PLACES],
        numbers: row_at(numbers, NUMBERS),
        grades: row_at(numbers, GRADES_HELD),
        grosses: row_at(numbers, GROSSES),
        nets: row_at(numbers, NETS),
    };
    Train { sums, cars }
}

// Writes totals from `at` on.
fn write_totals(t: Totals, to: &mut [u32], at: usize)
    requires { at + totals_places ≤ length to.old }
    ensures { to.new ≡ put to.old at (totals_numbers t) }
{
    let five = [
        t.accepted,
        (t.gross % HALF) as u32,
        (t.gross / HALF) as u32,
        (t.net % HALF) as u32,
        (t.net / HALF) as u32,
    ];
    marshalling::copy_at(&five, to, at);
}

// Writes the totals of all cars, and of each grade.
fn write_sums(sums: Sums, to: &mut [u32])
    requires { sums_places ≤ length to.old }
    ensures { to.new ≡ put to.old 0 (sums_numbers sums) }
{
    write_totals(sums.all, to, 0);
    for (i, &of_grade) in sums.grades.iter().enumerate() {
        write_totals(of_grade, to, TOTALS_PLACES + i * TOTALS_PLACES);
    }
}

// Writes a train, by its sums and its cars, into its slice, from which it is read again.
pub fn write_train(sums: Sums, cars: &HeldCars, to: &mut [u32])
    requires { length to.old ≡ train_places }
    ensures { (to.new ≡ train_numbers (tallied sums cars.now)) × (train_of to.new ≡ tallied sums cars.now) }
{
    write_sums(sums, to);
    to[SUMS_PLACES] = cars.held;
    marshalling::copy_at(&cars.numbers, to, NUMBERS);
    marshalling::copy_at(&cars.grades, to, GRADES_HELD);
    marshalling::copy_at(&cars.grosses, to, GROSSES);
    marshalling::copy_at(&cars.nets, to, NETS);
}
