// Where the reading of a sheet stands, and what a line brings.
ghost use Rattle.std.specs.Prelude.{◌≡◌, List, ℕ, ◌<◌};
ghost use Rattle.base.specs.Limits.{most_tables};
ghost use Rattle.base.specs.Refusal.{refusal_number};
ghost use Rattle.grammar.specs.Sheet.{due_by, refused_here, start};
ghost use Rattle.holding.specs.Inner.{state_in, step_in, reader_at};

use crate::LineRefusal;
use base::{MOST_TABLES, Refusal};
use reading::Due;
use table::Directory;

// The place and the number of the line due, how many rows the last table still lacks, and how many C lines, K lines
// and tables there are so far. The directory counts the rows that were read.
#[derive(Clone, Copy)]
pub struct Reader {
    pub at: usize,
    pub line: u32,
    pub owed: u32,
    pub cars: usize,
    pub struck: usize,
    pub directory: Directory,
}

// What a line brings: where the reading stands then, and if it is over, whether the sheet was read whole or why it is refused.
#[derive(Clone, Copy)]
pub struct Stepped {
    pub end: Option<Result<(), LineRefusal>>,
    pub reader: Reader,
}

// The first line is due.
pub fn started() -> Reader
    ensures { (l c f : List ℕ) → state_in result l c f ≡ start }
{
    Reader {
        at: 0,
        line: 1,
        owed: 0,
        cars: 0,
        struck: 0,
        directory: Directory {
            count: 0,
            types: [0u32; MOST_TABLES],
            rows: [0u32; MOST_TABLES],
        },
    }
}

// The letters that may come next, by the rows owed, the tables, and the lines behind them.
pub fn due_of(owed: u32, tables: u32, behind: usize) -> Due
    ensures { result ≡ due_by owed tables behind }
{
    let settled = owed == 0;
    let begun = settled && 0 < tables;
    Due {
        table: settled && behind == 0,
        row: !settled,
        car: begun,
        strike: begun,
        end: begun,
    }
}

// The reader at another place, with `rows` rows of table k read.
pub fn reader_at(reader: Reader, at: usize, line: u32, owed: u32, k: usize, rows: u32) -> Reader
    requires { k < most_tables }
    ensures { result ≡ reader_at reader at line owed k rows }
{
    let mut directory = reader.directory;
    directory.rows[k] = rows;
    Reader {
        at,
        line,
        owed,
        directory,
        ..reader
    }
}

// The line due is refused.
pub fn refused_here(reader: Reader, refusal: Refusal) -> Stepped
    ensures { (l c f : List ℕ) → step_in result l c f ≡ refused_here (state_in reader l c f) (refusal_number refusal) }
{
    Stepped {
        end: Some(Err(LineRefusal {
            line: reader.line,
            refusal,
        })),
        reader,
    }
}
