// A whole sheet: one to four tables, each a T line and its R lines, then up to 120 C lines and sixty K lines, then E.
#![tactic(auto)]

ghost use Rattle.std.specs.Prelude.{◌≡◌, length};
ghost use Rattle.grammar.specs.Sheet.{sheet_of};
ghost use Rattle.grammar.specs.Proper.{Proper};
ghost use Rattle.grammar.specs.ByGrammar.{ReadByGrammar};
ghost use Rattle.sheet.specs.Layout.{read_in, Held};

use base::{MOST_CAR_LINES, MOST_ROWS, MOST_STRIKES, MOST_TABLES, Refusal};
use holding::{HISTORY_NUMBERS, LineRefusal};
use scanning::{CAR_BYTES, END_BYTES, ROW_BYTES, STRIKE_BYTES, TABLE_BYTES};
use table::Directory;

mod rows; // rows.rt: the rows of a table, taken one after another

// The longest sheet, in bytes: four tables of 400 rows, 120 C lines, sixty K lines, and the E line.
pub const LONGEST_SHEET: usize = MOST_TABLES * (TABLE_BYTES + MOST_ROWS * ROW_BYTES)
    + MOST_CAR_LINES * CAR_BYTES
    + MOST_STRIKES * STRIKE_BYTES
    + END_BYTES;

// What reading a sheet gives, beside the arrays that are lent: the rows of its tables stand there as the
// directory says, line i behind the tables, of so many C and K lines, from 15 i on. Beside a refusal they are what was read before it.
#[derive(Clone, Copy)]
pub struct Contents {
    pub outcome: Result<(), LineRefusal>,
    pub directory: Directory,
    pub cars: usize,
    pub struck: usize,
}

// Reads a whole sheet into the arrays that are lent; or gives the first refusal of 2 to 9 that applies, with
// its line number.
pub fn read_sheet(
    s: &[u8],
    levels: &mut [u32; table::PLACES],
    capacities: &mut [u32; table::PLACES],
    fields: &mut [u32; HISTORY_NUMBERS],
) -> Contents
    ensures { (read_in result levels.new capacities.new fields.new ≡ sheet_of s.now)
        × Proper (length s.now) (sheet_of s.now)
        × Held s.now result levels.new capacities.new fields.new
        × ReadByGrammar s.now }
{
    let mut reader = holding::started();
    if LONGEST_SHEET < s.len() {
        return Contents {
            outcome: Err(LineRefusal {
                line: 0,
                refusal: Refusal::LongSheet,
            }),
            directory: reader.directory,
            cars: 0,
            struck: 0,
        };
    }
    loop {
        let taken = rows::take_rows(s, reader, levels, capacities);
        let step = stepping::read_step(s, taken, levels, capacities, fields);
        reader = step.reader;
        if let Some(outcome) = step.end {
            return Contents {
                outcome,
                directory: reader.directory,
                cars: reader.cars,
                struck: reader.struck,
            };
        }
    }
}
