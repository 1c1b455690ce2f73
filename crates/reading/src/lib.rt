// What a line is: the letters, a line of a sheet read at its place, or turned away by the first of 3, 4, 5 and 6 that applies. It has
// definitions and proofs, and no code.
#![tactic(auto)]

mod letter; // letter.rt: the letters, and a line's value

pub use letter::{Letter, Line, MOST_FIELDS};

// Which letters may come next.
#[derive(Clone, Copy)]
pub struct Due {
    pub table: bool,
    pub row: bool,
    pub car: bool,
    pub strike: bool,
    pub end: bool,
}
