// A line of a sheet is read at its place, or turned away by the first of 3, 4, 5 and 6 that applies.
#![tactic(auto)]

ghost use Rattle.std.specs.Prelude.{◌≡◌, Some, Ok, ◌+◌, ◌*◌, ◌≤◌, length};
ghost use Rattle.field.specs.Field.{columns};
ghost use Rattle.reading.specs.declared.letter.Line.{Line};
ghost use Rattle.reading.specs.Letter.{most_fields};
ghost use Rattle.reading.specs.Reading.{letter_of, feed_at, numbers_at, line_at};

use base::Refusal;
use field::COLUMNS;
use reading::{Due, Letter, Line, MOST_FIELDS};

mod widths; // widths.rt: the letters' bytes, and the lengths of their lines

pub use widths::{
    CAR_ACCEPTED_BYTES, CAR_BYTES, CAR_REFUSED_BYTES, END_BYTES, GRADE_TOTALS_BYTES, ROW_BYTES,
    SHEET_REFUSED_BYTES, STRIKE_BYTES, TABLE_BYTES, TOTALS_BYTES, byte_of, count_of,
};

// The letter of a sheet whose byte is b, if it may come next.
#[tactic(auto, using(base::proofs::Tests::tests), unfolding(reading::specs::Reading::letter_of))]
fn letter_of(b: u8, due: Due) -> Option<Letter>
    ensures { result ≡ letter_of b due }
{
    match b {
        b'T' if due.table => Some(Letter::Table),
        b'R' if due.row => Some(Letter::Row),
        b'C' if due.car => Some(Letter::Car),
        b'K' if due.strike => Some(Letter::Strike),
        b'E' if due.end => Some(Letter::End),
        _ => None,
    }
}

// The place of the first line feed from `at` on, or no place of s where there is none.
fn feed_at(s: &[u8], at: usize) -> usize
    ensures { (result ≡ feed_at s.now at) × (at ≤ result) }
{
    for i in at..s.len() {
        if s[i] == b'\n' {
            return i;
        }
    }
    s.len().max(at)
}

// The numbers of k fields from `at` on, if each field is one.
fn numbers_at(s: &[u8], at: usize, k: usize) -> Option<[u32; MOST_FIELDS]>
    requires { (k ≤ most_fields) × (at + columns * k ≤ length s.now) }
    ensures { result ≡ numbers_at s.now at k }
{
    let mut list = [0u32; MOST_FIELDS];
    for j in 0..k {
        list[j] = field::read_field(s, at + COLUMNS * j)?;
    }
    Some(list)
}

// The line that starts at `at`, with a search for its line feed: the refusals in their order.
fn find_line_at(s: &[u8], at: usize, due: Due) -> Result<Line, Refusal>
    ensures { result ≡ line_at s.now at due }
{
    let end = feed_at(s, at);
    if s.len() <= end {
        return Err(Refusal::NoLine);
    }
    let Some(letter) = letter_of(s[at], due) else {
        return Err(Refusal::WrongLetter);
    };
    let count = count_of(letter);
    if end - at != 1 + COLUMNS * count {
        return Err(Refusal::LineLength);
    }
    match numbers_at(s, at + 1, count) {
        Some(numbers) => Ok(Line { letter, numbers }),
        None => Err(Refusal::NotNumber),
    }
}

// The line that starts at `at`, of which the letter must be due. A line that is as it should be is taken at its fixed length, with no
// search for its line feed; it is handed back from here, since a line that is an Option of its own was copied once more.
pub fn read_line_at(s: &[u8], at: usize, due: Due) -> Result<Line, Refusal>
    ensures { result ≡ line_at s.now at due }
{
    if at < s.len() {
        if let Some(letter) = letter_of(s[at], due) {
            let count = count_of(letter);
            let feed = 1 + COLUMNS * count;
            if feed < s.len() - at && s[at + feed] == b'\n' {
                if let Some(numbers) = numbers_at(s, at + 1, count) {
                    return Ok(Line { letter, numbers });
                }
            }
        }
    }
    find_line_at(s, at, due)
}
