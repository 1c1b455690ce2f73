// The sheet of tables and cars written in the order of their entries.
ghost use Rattle.std.specs.Prelude.{◌≡◌, length};
ghost use Rattle.base.specs.Buffer.{put};
ghost use Rattle.merge.specs.Inner.{text_for, SheetReady};

use merge_lines::{ReadSheet, end_line};
use merge_write::{write_cars, write_tables};
use printing::append_line;

// Writes the sheet of the tables and cars of two sheets in their orders, and answers with its length. Tables are copied.
pub fn write_sheet(
    out: &mut [u8],
    tables: &[u64],
    cars: &[u64],
    first: &ReadSheet<'_>,
    second: &ReadSheet<'_>,
) -> usize
    requires { SheetReady first.now second.now tables.now cars.now (length out.old) }
    ensures { (result ≡ length (text_for first.now second.now tables.now cars.now))
        × (out.new ≡ put out.old 0 (text_for first.now second.now tables.now cars.now)) }
{
    let behind = write_tables(out, 0, tables, first, second);
    let last = write_cars(out, behind, cars, first, second);
    append_line(out, last, end_line(cars.len() as u32))
}
