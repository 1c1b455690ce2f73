// The rows of a table behind its first, taken one after another for as long as they are as they should be. It is what
// makes the reading of a long table quick; every other line is left to `read_step`.
ghost use Rattle.std.specs.Prelude.{◌≡◌, Some, false, List, ℕ, length};
ghost use Rattle.reading.specs.Reading.{line_at, row_only, row_read};
ghost use Rattle.table.specs.Table.{row_of, later_row_bad};
ghost use Rattle.grammar.specs.Inner.{Onward};
ghost use Rattle.holding.specs.Inner.{state_in, Bounds, SoundReader};

use base::MOST_ROWS;
use holding::{Reader, reader_at, store_row};
use scanning::ROW_BYTES;

// The level and the capacity of the R line at `at`, where there is one that may follow the row `level0`, `capacity0`.
fn next_row(s: &[u8], at: usize, level0: u32, capacity0: u32) -> Option<(u32, u32)>
    ensures { (level capacity : ℕ) → result ≡ Some (level, capacity) → (line_at s.now at row_only ≡ row_read level capacity) × (later_row_bad (row_of level0 capacity0) (row_of level capacity) ≡ false) }
{
    let (level, capacity) = rowline::row_at(s, at)?;
    if rowtests::later_row_bad(level0, capacity0, level, capacity) {
        return None;
    }
    Some((level, capacity))
}

// Takes rows of the last table, behind its first. The reader that is handed back is where the first other line is due.
pub fn take_rows(
    s: &[u8],
    reader: Reader,
    levels: &mut [u32; table::PLACES],
    capacities: &mut [u32; table::PLACES],
) -> Reader
    requires { Bounds reader × SoundReader (length s.now) reader levels.old capacities.old }
    ensures { (f : List ℕ) → Onward s.now (state_in reader levels.old capacities.old f) (state_in result levels.new capacities.new f) }
{
    let d = reader.directory;
    if reader.owed == 0 {
        return reader;
    }
    let k = d.count as usize - 1;
    let mut rows = d.rows[k];
    if rows == 0 {
        return reader;
    }
    let first = MOST_ROWS * k;
    let last = first + rows as usize - 1;
    let mut level = levels[last];
    let mut capacity = capacities[last];
    let mut at = reader.at;
    let mut line = reader.line;
    let mut owed = reader.owed;
    for left in (0..reader.owed).rev() {
        let Some((next_level, next_capacity)) = next_row(s, at, level, capacity) else {
            break;
        };
        level = next_level;
        capacity = next_capacity;
        store_row(levels, capacities, first + rows as usize, level, capacity);
        rows += 1;
        owed = left;
        at += ROW_BYTES;
        line += 1;
    }
    reader_at(reader, at, line, owed, k, rows)
}
