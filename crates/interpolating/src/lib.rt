// The rows of one table: those that a level passes, and the capacity between two. Rows are in mm and dm³, a level is in tenths
// of a mm.
#![tactic(auto)]

ghost use Rattle.std.specs.Prelude.{◌≡◌, ◌+◌, ◌≤◌, ◌<◌};
ghost use Rattle.base.specs.Limits.{in_tenths};
ghost use Rattle.table.specs.Layout.{places};
ghost use Rattle.gauging.specs.Capacity.{interpolated};
ghost use Rattle.gauging.specs.Inner.{gap_at, gap_of, Between, Reaches, RowBelow};

use base::TENTHS;
use gauging::Neighbours;
use table::{PLACES, Tables};

// A level in mm, in tenths of a mm.
pub fn in_tenths(mm: u32) -> u64
    ensures { result ≡ in_tenths mm }
{
    TENTHS * (mm as u64)
}

// The least whole mm that reaches a level.
pub fn least_mm(level: u64) -> u64
    ensures { Reaches level result }
{
    level.div_ceil(TENTHS)
}

// Of the rows `step` apart from `low` up to `last`, the last that does not reach `reach` mm; `low` where each after it does. The
// loop is never left early, so that no branch hangs on the level. A `for` over a `step_by` is no plainer: its proof needs the measure
// and the invariant all the same, and beside them what the iterator yields.
fn last_below(levels: &[u32; PLACES], low: usize, last: usize, step: usize, reach: u64) -> usize
    requires { (low ≤ last) × (last < places) × (0 < step) × (step ≤ places) }
    ensures { RowBelow levels.now low last reach result }
{
    let mut found = low;
    let mut i = low + step;
    while i <= last {
        if u64::from(levels[i]) < reach {
            found = i;
        }
        i += step;
    }
    found
}

// A row from `low` to `last` that does not reach `reach` mm, and after which the next one does where the rows rise; `low` where
// none is found. Blocks of 49 rows are passed first, then of 7, then rows.
pub fn skip_rows(levels: &[u32; PLACES], low: usize, last: usize, reach: u64) -> usize
    requires { (low ≤ last) × (last < places) }
    ensures { RowBelow levels.now low last reach result }
{
    let block = last_below(levels, low, last, 49, reach);
    let seven = last_below(levels, block, last.min(block + 48), 7, reach);
    last_below(levels, seven, last.min(seven + 6), 1, reach)
}

// Row `low` and the next.
pub fn neighbours(tables: &Tables<'_>, low: usize) -> Neighbours
    requires { low + 1 < places }
    ensures { gap_of result ≡ gap_at tables.now.levels.now tables.now.capacities.now low }
{
    Neighbours {
        low_level: tables.levels[low],
        low_capacity: tables.capacities[low],
        high_level: tables.levels[low + 1],
        high_capacity: tables.capacities[low + 1],
    }
}

// R of 100 times the capacity at a level, linear between two neighbouring rows, in 0.01 dm³.
pub fn interpolate(rows: Neighbours, level: u64) -> u32
    requires { Between (gap_of rows) level }
    ensures { result ≡ interpolated (gap_of rows) level }
{
    let passed = in_tenths(rows.low_level);
    let span = in_tenths(rows.high_level) - passed;
    let under = rows.low_capacity;
    let rise = ((rows.high_capacity - under) as u64) * (level - passed);
    // what the lower row has is whole, so only the rise is divided: a small number, for which a division is quick
    let part = base::round_half_up(100 * rise, span) as u32;
    100 * under + part
}
