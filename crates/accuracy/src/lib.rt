// The permitted error beside the mass: request (c) of document 02, after formula (20) of document 003. It has definitions and proofs, and
// no code.
#![tactic(auto)]

use car::Figures;

// The errors that are given: of the capacity table, of the density and of processing, in 0.0001 %; of the temperatures at which density
// and oil were measured, in 0.1 °C; of the level, in 0.1 mm.
#[derive(Clone, Copy)]
pub struct Errors {
    pub capacity: u32,
    pub density: u32,
    pub processing: u32,
    pub density_temperature: u32,
    pub oil_temperature: u32,
    pub level: u32,
}

// A car's six figures, the limit of the permitted error of its gross mass in 0.0001 %, and whether it is within 0.65 % (gross below
// 100 t) or 0.50 % (from 100 t).
#[derive(Clone, Copy)]
pub struct Permitted {
    pub figures: Figures,
    pub limit: u32,
    pub within: bool,
}
