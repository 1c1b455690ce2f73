// What an answer to a sheet is: its lines, and what holds of them. It has definitions and proofs, and no code.
#![tactic(auto)]

use base::Refusal;

// The answer's length in bytes, and the refusal, if there is one: 1 for too short a buffer, else the sheet's.
#[derive(Clone, Copy, Debug, PartialEq, Eq)]
pub struct Reply {
    pub length: usize,
    pub refusal: Option<Refusal>,
}
