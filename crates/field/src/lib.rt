// A field of a line: nine columns that hold a number of one to eight decimal digits, with spaces before it.
#![tactic(auto)]

ghost use Rattle.std.specs.Prelude.{◌≡◌, ◌+◌, ◌≤◌, length};
ghost use Rattle.base.specs.Buffer.{put};
ghost use Rattle.field.specs.Field.{columns, column_of, field_at, glyph_of, field_of, field_fits, after_field};

use base::LARGEST;

// How many columns, and so bytes, a field has; its last digit stands in the last.
pub const COLUMNS: usize = 9;

const LAST: usize = COLUMNS - 1;

// The largest number that one more digit may follow.
const SEVEN_DIGITS: u32 = LARGEST / 10;

// What the columns passed so far hold.
#[derive(Clone, Copy)]
pub enum Seen {
    Blank,
    Digits(u32),
    Broken,
}

// What is seen once one more column is passed.
fn column(seen: Seen, b: u8) -> Seen
    ensures { result ≡ column_of seen b }
{
    match (seen, b) {
        (Seen::Blank, b' ') => Seen::Blank,
        (Seen::Blank, b'0'..=b'9') => Seen::Digits(u32::from(b - b'0')),
        (Seen::Digits(v), b'0'..=b'9') if v != 0 && v <= SEVEN_DIGITS => {
            Seen::Digits(10 * v + u32::from(b - b'0'))
        }
        _ => Seen::Broken,
    }
}

// The field whose first column is at `at`. A field that runs past the end of s is no number.
pub fn read_field(s: &[u8], at: usize) -> Option<u32>
    ensures { result ≡ field_at s.now at }
{
    if s.len() < COLUMNS || s.len() - COLUMNS < at {
        return None;
    }
    let mut seen = Seen::Blank;
    for &b in &s[at..at + COLUMNS] {
        seen = column(seen, b);
    }
    match seen {
        Seen::Digits(n) => Some(n),
        Seen::Blank | Seen::Broken => None,
    }
}

// The byte of n's last digit, or a space where n is 0.
fn glyph(n: u32) -> u8
    ensures { result ≡ glyph_of n }
{
    if n == 0 { b' ' } else { b'0' + (n % 10) as u8 }
}

// Writes n's field from `at` on, the last digit first.
fn put_field(out: &mut [u8], at: usize, n: u32)
    requires { at + columns ≤ length out.old }
    ensures { out.new ≡ put out.old at (field_of n) }
{
    out[at + LAST] = b'0' + (n % 10) as u8;
    let mut rest = n / 10;
    for i in (0..LAST).rev() {
        out[at + i] = glyph(rest);
        rest /= 10;
    }
}

// Writes n's field from `at` on where n has at most eight digits and there is room, else nothing. Answers
// whether it was written.
pub fn write_field(out: &mut [u8], at: usize, n: u32) -> bool
    ensures { (result ≡ field_fits n at (length out.old)) × (out.new ≡ after_field n at out.old) }
{
    if LARGEST < n || out.len() < COLUMNS || out.len() - COLUMNS < at {
        return false;
    }
    put_field(out, at, n);
    true
}
