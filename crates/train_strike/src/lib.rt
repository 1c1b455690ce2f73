// Takes a car out of a train whose cars lie in arrays that are lent.
#![tactic(auto)]

ghost use Rattle.std.specs.Prelude.{◌≡◌, ◌≤◌, ◌<◌, take};
ghost use Rattle.base.specs.Limits.{most_cars};
ghost use Rattle.base.specs.Refusal.{figure_told};
ghost use Rattle.consist.specs.Train.{position, closed, strike_answer, strike_train};
ghost use Rattle.consist.specs.Inner.{SoundTrain};
ghost use Rattle.consist.specs.Lent.{train_in};

use base::{MOST_CARS, Refusal};
use consist::HeldCars;

// The first place of a number among the first n; n where it is not among them.
pub fn place_of(numbers: &[u32; MOST_CARS], n: usize, number: u32) -> usize
    requires { n ≤ most_cars }
    ensures { result ≡ position number (take n numbers.now) }
{
    let held = &numbers[..n];
    held.iter().position(|&x| x == number).unwrap_or(n)
}

// Takes out place k: later places move up by one, and the last becomes free.
pub fn close_up(list: &mut [u32; MOST_CARS], k: usize)
    requires { k < most_cars }
    ensures { list.new ≡ closed k list.old }
{
    list.copy_within(k + 1.., k);
    list[MOST_CARS - 1] = 0;
}

// Strikes a number, for a caller with many: the train is known to be sound. Its sums are those that its cars make, and are not kept.
pub fn strike_on(cars: &mut HeldCars, number: u32) -> Result<u32, Refusal>
    requires { SoundTrain (train_in cars.old) }
    ensures answered { figure_told result ≡ strike_answer (train_in cars.old) number }
    ensures struck { train_in cars.new ≡ strike_train (train_in cars.old) number }
{
    let held = cars.held as usize;
    let at = place_of(&cars.numbers, held, number);
    if held <= at {
        return Err(Refusal::NotHeld);
    }
    close_up(&mut cars.numbers, at);
    close_up(&mut cars.grades, at);
    close_up(&mut cars.grosses, at);
    close_up(&mut cars.nets, at);
    cars.held -= 1;
    Ok(number)
}
