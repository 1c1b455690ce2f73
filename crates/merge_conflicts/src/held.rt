// 33 and 34: the types and the numbers of the cars held on two sheets.
ghost use Rattle.std.specs.Prelude.{◌≡◌, map, ℕ, ◌+◌, ◌≤◌, ◌<◌, take};
ghost use Rattle.base.specs.Limits.{most_cars, most_car_lines, most_strikes};
ghost use Rattle.base.specs.Lists.{Each};
ghost use Rattle.base.specs.Numbers.{any, member};
ghost use Rattle.table.specs.Layout.{tables_in};
ghost use Rattle.table.specs.Inner.{GoodTables};
ghost use Rattle.merge_spec.specs.Merge.{type_elsewhere};
ghost use Rattle.merge_order.specs.Inner.{car_in};
ghost use Rattle.merge_conflicts.specs.Inner.{only_there};

use base::MOST_CARS;
use holding::{HISTORY_NUMBERS, LINE_PLACES};
use table::Tables;
use tabletests::knows_type;

// Whether a type is among those of the second sheet's tables and not of the first's.
fn only_there(first: &Tables<'_>, second: &Tables<'_>, kind: u32) -> bool
    ensures { result ≡ only_there first.now second.now kind }
{
    !knows_type(first, kind) && knows_type(second, kind)
}

// 33: whether a car held on one sheet has a type that its tables lack and the other's have. The lines of the cars stand in `fields`,
// at these places; a line's third number, behind its letter and the car number, is the type.
#[tactic(auto, using(crate::proofs::Passing::passing_hit))]
pub fn type_elsewhere(
    first: &Tables<'_>,
    second: &Tables<'_>,
    fields: &[u32; HISTORY_NUMBERS],
    places: &[u32],
) -> bool
    requires { Each (λ p. p < most_car_lines + most_strikes) places.now }
    ensures { GoodTables first.now → GoodTables second.now
        → result ≡ type_elsewhere (tables_in first.now) (tables_in second.now) (map (car_in fields.now) places.now) }
{
    for &p in places {
        if only_there(first, second, fields[LINE_PLACES * p as usize + 2]) {
            return true;
        }
    }
    false
}

// 34: whether one of the first n numbers is among the first m others.
pub fn held_on_both(
    numbers: &[u32; MOST_CARS],
    n: usize,
    others: &[u32; MOST_CARS],
    m: usize,
) -> bool
    requires { n ≤ most_cars }
    ensures { result ≡ any (λ (x : ℕ). member x (take m others.now)) (take n numbers.now) }
{
    for &x in &numbers[..n] {
        if base::holds(others, m, x) {
            return true;
        }
    }
    false
}
