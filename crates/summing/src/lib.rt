// Accepted cars and their total masses, of all cars and of each grade: with one car more, and whether those of all are the sums of the grades'.
#![tactic(auto)]

ghost use Rattle.std.specs.Prelude.{◌≡◌, ℕ, ◌+◌, eqb};
ghost use Rattle.base.specs.Limits.{most_cars};
ghost use Rattle.summing.specs.Sums.{together, same_totals, with_car};
ghost use Rattle.summing.specs.Inner.{Small, shown_as};

use base::GRADES;

// How many cars are accepted, and their gross and net in kg.
#[derive(Clone, Copy, Debug, PartialEq, Eq)]
pub struct Totals {
    pub accepted: u32,
    pub gross: u64,
    pub net: u64,
}

// The totals of all accepted cars, and of those of each grade, grade 1 first.
#[derive(Clone, Copy, Debug, PartialEq, Eq)]
pub struct Sums {
    pub all: Totals,
    pub grades: [Totals; GRADES],
}

// Whether four numbers make a sum. They are taken from it one after another, so that none of any size overflows.
fn is_sum(sum: u64, a: u64, b: u64, c: u64, d: u64) -> bool
    ensures { result ≡ eqb sum (a + (b + (c + (d + 0)))) }
{
    a <= sum && b <= sum - a && c <= sum - a - b && d == sum - a - b - c
}

impl Totals {
    // With one car more: they are then those of one more, whose masses fit 32 bits.
    pub fn with_car(self, grade: u32, gross: u32, net: u32) -> Totals
        requires { Small most_cars self }
        ensures { (result ≡ with_car (shown_as grade gross net) self) × ((n : ℕ) → Small n self → Small (n + 1) result) }
    {
        Totals {
            accepted: self.accepted + 1,
            gross: self.gross + u64::from(gross),
            net: self.net + u64::from(net),
        }
    }
}

// Whether the totals of all cars are the sums of the grades'.
pub fn adds_up(sums: Sums) -> bool
    ensures { result ≡ same_totals sums.all (together sums.grades) }
{
    let all = sums.all;
    let [a, b, c, d] = sums.grades;
    let accepted = is_sum(
        all.accepted as u64,
        a.accepted as u64,
        b.accepted as u64,
        c.accepted as u64,
        d.accepted as u64,
    );
    let gross = is_sum(all.gross, a.gross, b.gross, c.gross, d.gross);
    let net = is_sum(all.net, a.net, b.net, c.net, d.net);
    accepted && gross && net
}
