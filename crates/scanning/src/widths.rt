// The letters' bytes, and the lengths of their lines.
ghost use Rattle.std.specs.Prelude.{◌≡◌, ◌≤◌};
ghost use Rattle.reading.specs.Letter.{byte_of, count_of, most_fields};

use field::COLUMNS;
use reading::Letter;

// How many fields a line of each letter has.
const TABLE_FIELDS: usize = 2;

const ROW_FIELDS: usize = 2;

const CAR_FIELDS: usize = 14;

const STRIKE_FIELDS: usize = 1;

const END_FIELDS: usize = 1;

const CAR_ACCEPTED_FIELDS: usize = 6;

const CAR_REFUSED_FIELDS: usize = 2;

const TOTALS_FIELDS: usize = 3;

const GRADE_TOTALS_FIELDS: usize = 4;

const SHEET_REFUSED_FIELDS: usize = 2;

// How many bytes: the letter, its fields, and the line feed.
pub const TABLE_BYTES: usize = 2 + COLUMNS * TABLE_FIELDS;

pub const ROW_BYTES: usize = 2 + COLUMNS * ROW_FIELDS;

pub const CAR_BYTES: usize = 2 + COLUMNS * CAR_FIELDS;

pub const STRIKE_BYTES: usize = 2 + COLUMNS * STRIKE_FIELDS;

pub const END_BYTES: usize = 2 + COLUMNS * END_FIELDS;

pub const CAR_ACCEPTED_BYTES: usize = 2 + COLUMNS * CAR_ACCEPTED_FIELDS;

pub const CAR_REFUSED_BYTES: usize = 2 + COLUMNS * CAR_REFUSED_FIELDS;

pub const TOTALS_BYTES: usize = 2 + COLUMNS * TOTALS_FIELDS;

pub const GRADE_TOTALS_BYTES: usize = 2 + COLUMNS * GRADE_TOTALS_FIELDS;

pub const SHEET_REFUSED_BYTES: usize = 2 + COLUMNS * SHEET_REFUSED_FIELDS;

// The byte of a letter.
pub fn byte_of(letter: Letter) -> u8
    ensures { result ≡ byte_of letter }
{
    letter as u8
}

// How many fields a line of the letter has.
pub fn count_of(letter: Letter) -> usize
    ensures { (result ≡ count_of letter) × (result ≤ most_fields) }
{
    match letter {
        Letter::Table => TABLE_FIELDS,
        Letter::Row => ROW_FIELDS,
        Letter::Car => CAR_FIELDS,
        Letter::Strike => STRIKE_FIELDS,
        Letter::End => END_FIELDS,
        Letter::CarAccepted => CAR_ACCEPTED_FIELDS,
        Letter::CarRefused => CAR_REFUSED_FIELDS,
        Letter::Totals => TOTALS_FIELDS,
        Letter::GradeTotals => GRADE_TOTALS_FIELDS,
        Letter::SheetRefused => SHEET_REFUSED_FIELDS,
    }
}
