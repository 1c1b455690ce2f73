// The capacity at a level, read off capacity tables, and V0: step 2 of document 01, with refusals 12, 16 and 17. It has definitions
// and proofs, and no code.
#![tactic(auto)]

// Two neighbouring rows of a table: levels in mm, capacities in dm³.
#[derive(Clone, Copy)]
pub struct Neighbours {
    pub low_level: u32,
    pub low_capacity: u32,
    pub high_level: u32,
    pub high_capacity: u32,
}
