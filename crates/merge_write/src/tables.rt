// The tables of a sheet made of two, copied from the sheets in the order of their entries.
ghost use Rattle.std.specs.Prelude.{◌≡◌, ℕ, ◌+◌, ◌≤◌, ◌<◌, length, get_or};
ghost use Rattle.base.specs.Buffer.{put};
ghost use Rattle.base.specs.Limits.{most_tables, most_rows};
ghost use Rattle.merge_write.specs.Inner.{table_bytes, start_of, table_text, Within, text_place, WithinPlace, tables_text, TablesReady};

use base::MOST_TABLES;
use merge_lines::{ReadSheet, copy_bytes};
use merge_order::SPAN;
use scanning::{ROW_BYTES, TABLE_BYTES};

// How many bytes of a sheet stand before its table k, by the numbers of rows.
fn table_start(rows: &[u32; MOST_TABLES], k: usize) -> usize
    requires { (k < most_tables) × ((j : ℕ) → j ≤ k → get_or rows.now j 0 ≤ most_rows) }
    ensures { result ≡ start_of rows.now k }
{
    let mut start = 0;
    for j in 0..k {
        start += TABLE_BYTES + ROW_BYTES * rows[j] as usize;
    }
    start
}

// Copies table k of a sheet to the place `at`, and answers the place behind it.
fn copy_table(out: &mut [u8], at: usize, sheet: &ReadSheet<'_>, k: usize) -> usize
    requires { (k < most_tables) × Within sheet.now k × (at + table_bytes sheet.now.tables.rows k ≤ length out.old) }
    ensures { (result ≡ at + table_bytes sheet.now.tables.rows k) × (out.new ≡ put out.old at (table_text sheet.now k)) }
{
    let start = table_start(&sheet.tables.rows, k);
    let bytes = TABLE_BYTES + ROW_BYTES * sheet.tables.rows[k] as usize;
    copy_bytes(out, at, sheet.text, start, bytes)
}

// Copies the table at a place, the first sheet's up to 3 and the second's from 4 on, and answers the place behind it.
fn copy_by(
    out: &mut [u8],
    at: usize,
    p: usize,
    first: &ReadSheet<'_>,
    second: &ReadSheet<'_>,
) -> usize
    requires { WithinPlace first.now second.now p × (at + length (text_place first.now second.now p) ≤ length out.old) }
    ensures { (result ≡ at + length (text_place first.now second.now p))
        × (out.new ≡ put out.old at (text_place first.now second.now p)) }
{
    if p < MOST_TABLES {
        return copy_table(out, at, first, p);
    }
    copy_table(out, at, second, p - MOST_TABLES)
}

// Copies the tables of the entries to the place `at`, and answers the place behind them.
pub fn write_tables(
    out: &mut [u8],
    at: usize,
    order: &[u64],
    first: &ReadSheet<'_>,
    second: &ReadSheet<'_>,
) -> usize
    requires { TablesReady first.now second.now order.now at (length out.old) }
    ensures { (result ≡ at + length (tables_text first.now second.now order.now))
        × (out.new ≡ put out.old at (tables_text first.now second.now order.now)) }
{
    let mut place = at;
    for &entry in order {
        place = copy_by(out, place, (entry % SPAN) as usize, first, second);
    }
    place
}
