// What is held while a sheet is read: where the reading stands, and the rows and lines behind the tables so far.
#![tactic(auto)]

use base::{MOST_CAR_LINES, MOST_STRIKES, Refusal};
use reading::MOST_FIELDS;
use std::error::Error;
use std::fmt;

mod reader; // reader.rt: where the reading stands
mod store; // store.rt: rows and lines stored in the arrays that are lent

pub use reader::{Reader, Stepped, due_of, reader_at, refused_here, started};
pub use store::{store_line, store_row};

// How many numbers stand for a line behind the tables, its letter first, and for all of them at most.
pub const LINE_PLACES: usize = 1 + MOST_FIELDS;

pub const HISTORY_NUMBERS: usize = (MOST_CAR_LINES + MOST_STRIKES) * LINE_PLACES;

// What stands for the letter of a C line, and of a K line.
pub const CAR_MARK: u32 = 0;

pub const STRIKE_MARK: u32 = 1;

// Why a sheet is refused, and at which line.
#[derive(Clone, Copy, Debug, PartialEq, Eq)]
pub struct LineRefusal {
    pub line: u32,
    pub refusal: Refusal,
}

// The number of the refusal, then that of the line.
impl fmt::Display for LineRefusal {
    fn fmt<W: fmt::Write>(&self, f: &mut fmt::Formatter<W>) -> fmt::Result {
        write!(f, "{} {}", self.refusal, self.line)
    }
}

impl Error for LineRefusal {}
