// From V0 to kilograms: steps 3, 7 and 8 of document 01, the same without R, and how far the two lie apart. It has definitions and
// proofs, and no code.
#![tactic(auto)]

// V15 in 0.01 dm³, gross and net in kg.
#[derive(Clone, Copy)]
pub struct Masses {
    pub v15: u32,
    pub gross: u32,
    pub net: u32,
}
