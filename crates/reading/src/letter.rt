// The letters of a sheet and of an answer, and a line's value.

// T, R, C, K, E of a sheet; A, X, S, G, Z of an answer, which has K lines too: each by its byte.
#[derive(Clone, Copy)]
pub enum Letter {
    Table = b'T' as isize,
    Row = b'R' as isize,
    Car = b'C' as isize,
    Strike = b'K' as isize,
    End = b'E' as isize,
    CarAccepted = b'A' as isize,
    CarRefused = b'X' as isize,
    Totals = b'S' as isize,
    GradeTotals = b'G' as isize,
    SheetRefused = b'Z' as isize,
}

// The most fields that a letter has: a line's value has as many places.
pub const MOST_FIELDS: usize = 14;

// A line: its letter, and its numbers in the first places, as many as the letter has fields.
#[derive(Clone, Copy)]
pub struct Line {
    pub letter: Letter,
    pub numbers: [u32; MOST_FIELDS],
}
