// Two sheets become one, whose tables rise by type and whose cars rise by number.
#![tactic(auto)]

ghost use Rattle.std.specs.Prelude.{◌≡◌, ◌≤◌, length, take, IfOk, Ok};
ghost use Rattle.grammar.specs.Sheet.{sheet_of};
ghost use Rattle.sheet.specs.Layout.{read_in};
ghost use Rattle.merge_spec.specs.Merge.{least_merge_buffer, Merges};
ghost use Rattle.merge_spec.specs.Merged.{MadeOf, MergeLaws};
ghost use Rattle.merge_spec.specs.Examples.{MergeExamples};
ghost use Rattle.merge_spec.specs.Reply.{reply_by, reply_of};
ghost use Rattle.merge_laws.specs.Pair.{PairExample};
ghost use Rattle.merge.specs.Inner.{merged_sheets, Gives};

use base::{MOST_CARS, MOST_ROWS, MOST_TABLES, Refusal};
use holding::{HISTORY_NUMBERS, LineRefusal};
use merge_lines::ReadSheet;
use scanning::{CAR_BYTES, END_BYTES, ROW_BYTES, TABLE_BYTES};
use sheet::{Contents, read_sheet};
use table::{Directory, PLACES, Tables};

mod conflict; // conflict.rt: 33 and 34
mod order; // order.rt: cars and tables in order
mod read; // read.rt: two sheets that were read become one
mod write; // write.rt: the sheet written

// How many cars, and how many tables, two sheets have at most.
pub const BOTH_CARS: usize = 2 * MOST_CARS;

pub const BOTH_TABLES: usize = 2 * MOST_TABLES;

// The longest merged sheet, in bytes, and so the least buffer: four tables of 400 rows, sixty C lines and E.
pub const LEAST_MERGE_BUFFER: usize = MOST_TABLES * (TABLE_BYTES + MOST_ROWS * ROW_BYTES)
    + MOST_CARS * CAR_BYTES
    + END_BYTES;

// A refusal of merging itself has line 0.
fn without_line(merged: Result<usize, Refusal>) -> Result<usize, LineRefusal>
    ensures { reply_of result ≡ reply_by merged }
{
    merged.map_err(|refusal| LineRefusal { line: 0, refusal })
}

// A sheet that was read whole into arrays.
fn whole_sheet<'a>(
    text: &'a [u8],
    contents: Contents,
    levels: &'a [u32; PLACES],
    capacities: &'a [u32; PLACES],
    fields: &'a [u32; HISTORY_NUMBERS],
) -> ReadSheet<'a>
    requires { (read_in contents levels.now capacities.now fields.now ≡ sheet_of text.now) × (contents.outcome ≡ Ok tt) }
    ensures { result.text.now ≡ text.now }
{
    let Directory { count, types, rows } = contents.directory;
    ReadSheet {
        text,
        tables: Tables {
            count,
            types,
            rows,
            levels,
            capacities,
        },
        fields,
        lines: contents.cars + contents.struck,
    }
}

// Merges a sheet that was read with a second one.
fn merge_second(out: &mut [u8], first: &ReadSheet<'_>, text: &[u8]) -> Result<usize, LineRefusal>
    requires { least_merge_buffer ≤ length out.old }
    ensures { Gives (merged_sheets first.now.text.now text.now) out.old (reply_of result) out.new }
{
    let mut levels = [0u32; PLACES];
    let mut capacities = [0u32; PLACES];
    let mut fields = [0u32; HISTORY_NUMBERS];
    let found = read_sheet(text, &mut levels, &mut capacities, &mut fields);
    found.outcome?;
    let second = whole_sheet(text, found, &levels, &capacities, &fields);
    without_line(read::merge_read(out, first, &second))
}

// Makes one sheet of two, into a lent buffer, and hands back its length; or 1 for too short a buffer, a sheet's own refusal with its
// line, 33, 34 or 35, and then nothing is written. Bytes past the length stay as lent.
pub fn merge_sheets(first: &[u8], second: &[u8], out: &mut [u8]) -> Result<usize, LineRefusal>
    ensures { Merges first.now second.now out.old (reply_of result) out.new
        × IfOk result (λ n. MadeOf first.now second.now (take n out.new) × (n ≤ least_merge_buffer))
        × MergeLaws first.now second.now
        × MergeExamples
        × PairExample }
{
    if out.len() < LEAST_MERGE_BUFFER {
        return without_line(Err(Refusal::ShortBuffer));
    }
    let mut levels = [0u32; PLACES];
    let mut capacities = [0u32; PLACES];
    let mut fields = [0u32; HISTORY_NUMBERS];
    let contents = read_sheet(first, &mut levels, &mut capacities, &mut fields);
    contents.outcome?;
    let read = whole_sheet(first, contents, &levels, &capacities, &fields);
    merge_second(out, &read, second)
}
