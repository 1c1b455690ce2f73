// What every other crate stands on: R of document 01, a number widened with its bound, the lesser of two, their difference, a search,
// the edition, and the limits.
#![tactic(auto)]

ghost use Rattle.std.specs.Prelude.{◌≡◌, take};
ghost use Rattle.base.specs.Rounding.{rounded};
ghost use Rattle.base.specs.Numbers.{Wide, difference, member};
ghost use Rattle.base.specs.Edition.{edition_by};

mod limits; // limits.rt: the limits that more than one rule names
mod refusal; // refusal.rt: the refusals by their numbers

pub use limits::{
    GRADES, GREATEST_CAPACITY, HIGHEST_LEVEL, LARGEST, MOST_CAR_LINES, MOST_CARS, MOST_ROWS,
    MOST_STRIKES, MOST_TABLES, TENTHS,
};
pub use refusal::Refusal;

// The edition of a contract: masses are reckoned at 15 °C in the first, at 20 °C in the second.
#[derive(Clone, Copy)]
pub enum Edition {
    First,
    Second,
}

// The edition of a number, which is 1 or 2.
pub fn edition_by(number: u32) -> Edition
    ensures { result ≡ edition_by number }
{
    if number == 2 {
        return Edition::Second;
    }
    Edition::First
}

// R(n / d): to the nearest whole number, a half going up; 0 where d is 0.
pub fn round_half_up(n: u64, d: u64) -> u64
    ensures { result ≡ rounded n d }
{
    if d == 0 {
        return 0;
    }
    let quotient = n / d;
    let rest = n % d;
    if rest < d - rest {
        return quotient;
    }
    quotient + 1
}

// A u32 as a u64. The contract hands on the bound that the type has, which an element of an array lacks.
pub fn wide(x: u32) -> u64
    ensures { Wide x result }
{
    x as u64
}

// By how much two numbers differ.
pub fn difference(a: u32, b: u32) -> u32
    ensures { result ≡ difference a b }
{
    a.abs_diff(b)
}

// Whether x is among the first n numbers, or among all where there are fewer.
pub fn holds(numbers: &[u32], n: usize, x: u32) -> bool
    ensures { result ≡ member x (take n numbers.now) }
{
    numbers[..n.min(numbers.len())].contains(&x)
}
