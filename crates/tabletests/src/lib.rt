// Refusals 7 and 8 of tables handed in, and whether a type is known, which 12 asks.
#![tactic(auto)]

ghost use Rattle.std.specs.Prelude.{◌≡◌, ◌+◌, ◌≤◌, ◌<◌, take};
ghost use Rattle.base.specs.Answer.{first};
ghost use Rattle.base.specs.Numbers.{member};
ghost use Rattle.base.specs.Refusal.{verdict_told};
ghost use Rattle.table.specs.Table.{rows_tests, tables_verdict};
ghost use Rattle.table.specs.Layout.{places, rows_from, tables_in};

use base::{MOST_ROWS, MOST_TABLES, Refusal};
use rowtests::{first_row_bad, later_row_bad, table_line_bad};
use table::Tables;

// 8 where one of the n rows from `at` on is not as an R line must be.
fn check_rows(tables: &Tables<'_>, at: usize, n: usize) -> Result<(), Refusal>
    requires { (0 < n) × (at + n ≤ places) }
    ensures { verdict_told result ≡ first (rows_tests (rows_from tables.now.levels.now tables.now.capacities.now at n)) }
{
    let mut level = tables.levels[at];
    let mut capacity = tables.capacities[at];
    if first_row_bad(level, capacity) {
        return Err(Refusal::RowLine);
    }
    for i in at + 1..at + n {
        if later_row_bad(level, capacity, tables.levels[i], tables.capacities[i]) {
            return Err(Refusal::RowLine);
        }
        level = tables.levels[i];
        capacity = tables.capacities[i];
    }
    Ok(())
}

// The first refusal of the tables, line by line: 7 for a T line, 8 for an R line.
pub fn check_tables(tables: &Tables<'_>) -> Result<(), Refusal>
    ensures { verdict_told result ≡ tables_verdict (tables_in tables.now) }
{
    for k in 0..tables.count as usize {
        // the fifth has no place in the directory
        if MOST_TABLES <= k {
            return Err(Refusal::TableLine);
        }
        if table_line_bad(tables.types, k, tables.types[k], tables.rows[k]) {
            return Err(Refusal::TableLine);
        }
        check_rows(tables, MOST_ROWS * k, tables.rows[k] as usize)?;
    }
    Ok(())
}

// Whether a type is among those of the tables. Where none of tables that are not refused has it, the refusal is 12.
pub fn knows_type(tables: &Tables<'_>, kind: u32) -> bool
    ensures { result ≡ member kind (take tables.now.count tables.now.types) }
{
    base::holds(&tables.types, tables.count as usize, kind)
}
