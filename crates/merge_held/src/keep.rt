// The cars held so far, by their numbers and their places in two arrays: one is kept, or taken out.
ghost use Rattle.std.specs.Prelude.{◌≡◌, ◌||◌, take};
ghost use Rattle.base.specs.Limits.{largest};
ghost use Rattle.base.specs.Numbers.{outside, member};
ghost use Rattle.merge_held.specs.Inner.{Rows, one_more, one_less};

use base::{LARGEST, MOST_CARS};
use train_strike::{close_up, place_of};

// Whether 10 or 11 turns a car of this number away behind the first `count` numbers.
fn turned_away(numbers: &[u32; MOST_CARS], count: usize, number: u32) -> bool
    ensures { result ≡ (outside 1 largest number || member number (take count numbers.now)) }
{
    number < 1 || LARGEST < number || base::holds(numbers, count, number)
}

// A C line: its car is kept behind the first `count`, unless 9, 10 or 11 turns it away. Answers how many there are then.
pub fn enter(
    numbers: &mut [u32; MOST_CARS],
    places: &mut [u32; MOST_CARS],
    count: usize,
    number: u32,
    place: u32,
) -> usize
    requires { Rows numbers.old places.old count }
    ensures { (take result numbers.new ≡ one_more (take count numbers.old) number (take count numbers.old) number)
        × (take result places.new ≡ one_more (take count numbers.old) number (take count places.old) place)
        × Rows numbers.new places.new result }
{
    if MOST_CARS <= count || turned_away(numbers, count, number) {
        return count;
    }
    numbers[count] = number;
    places[count] = place;
    count + 1
}

// A K line: the car of its number is taken out of the first `count`, if it is there. Answers how many there are then.
pub fn strike(
    numbers: &mut [u32; MOST_CARS],
    places: &mut [u32; MOST_CARS],
    count: usize,
    number: u32,
) -> usize
    requires { Rows numbers.old places.old count }
    ensures { (take result numbers.new ≡ one_less (take count numbers.old) number (take count numbers.old))
        × (take result places.new ≡ one_less (take count numbers.old) number (take count places.old))
        × Rows numbers.new places.new result }
{
    let at = place_of(numbers, count, number);
    if count <= at {
        return count;
    }
    close_up(numbers, at);
    close_up(places, at);
    count - 1
}
