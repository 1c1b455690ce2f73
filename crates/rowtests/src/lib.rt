// Refusals 7 and 8 for the lines of a table, one by one.
#![tactic(auto)]

ghost use Rattle.std.specs.Prelude.{◌≡◌, ◌+◌, ◌<◌, take};
ghost use Rattle.table.specs.Table.{row_of, table_line_bad, first_row_bad, later_row_bad, row_bad};
ghost use Rattle.table.specs.Layout.{places, rows_from};

use base::{GREATEST_CAPACITY, HIGHEST_LEVEL, MOST_ROWS, MOST_TABLES};
use table::PLACES;

// 7: whether a T line with the type and so many rows is bad behind `count` tables.
pub fn table_line_bad(types: [u32; MOST_TABLES], count: usize, kind: u32, rows: u32) -> bool
    ensures { result ≡ table_line_bad (take count types) kind rows }
{
    kind < 1
        || 9_999 < kind
        || base::holds(&types, count, kind)
        || rows < 2
        || MOST_ROWS < rows as usize
        || MOST_TABLES <= count
}

// 8: whether a table's first row is bad.
pub fn first_row_bad(level: u32, capacity: u32) -> bool
    ensures { result ≡ first_row_bad (row_of level capacity) }
{
    level != 0 || capacity != 0
}

// 8: whether a row is bad behind the row `level0`, `capacity0`.
pub fn later_row_bad(level0: u32, capacity0: u32, level: u32, capacity: u32) -> bool
    ensures { result ≡ later_row_bad (row_of level0 capacity0) (row_of level capacity) }
{
    level <= level0
        || capacity <= capacity0
        || HIGHEST_LEVEL < level
        || GREATEST_CAPACITY < capacity
}

// 8: whether a row is bad behind the `rows` rows from `at` on.
pub fn row_bad(
    levels: &[u32; PLACES],
    capacities: &[u32; PLACES],
    at: usize,
    rows: usize,
    level: u32,
    capacity: u32,
) -> bool
    requires { at + rows < places }
    ensures { result ≡ row_bad (rows_from levels.now capacities.now at rows) (row_of level capacity) }
{
    if rows == 0 {
        return first_row_bad(level, capacity);
    }
    let last = at + rows - 1;
    later_row_bad(levels[last], capacities[last], level, capacity)
}
