// The stick compared with the tape, request (f) of document 02 (002, section 14). It has definitions and proofs, and no code.
#![tactic(auto)]

// How many places there are for readings of the tape.
pub const TAPE_READINGS: usize = 20;

// A difference in 0.01 mm, by its sign and its size. One of 0 is not negative.
#[derive(Clone, Copy, Debug, PartialEq, Eq)]
pub struct Difference {
    pub negative: bool,
    pub size: u32,
}

// The stick level less the mean of the tape, whether that passes, and the tape allowance for the stick level in 0.01 mm.
#[derive(Clone, Copy, Debug, PartialEq, Eq)]
pub struct Comparison {
    pub difference: Difference,
    pub passes: bool,
    pub allowance: u32,
}
