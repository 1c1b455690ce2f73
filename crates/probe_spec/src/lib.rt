// What a portable probe hands over, and its tenths: request (i) of document 02. It has definitions and proofs, and no code.
#![tactic(auto)]

use heating::Density15;

// A reading is a level in mm, a temperature in °C or a density at 15 °C in kg/m³.
#[derive(Clone, Copy)]
pub enum ProbeReading {
    Level(f32),
    Temperature(f32),
    Density(f32),
}

// A set is one of each held together.
#[derive(Clone, Copy)]
pub struct ProbeSet {
    pub level: f32,
    pub temperature: f32,
    pub density: f32,
}

// A set in tenths: of a mm, of a °C, and the density at 15 °C in 0.1 kg/m³.
#[derive(Clone, Copy)]
pub struct SetTenths {
    pub level: u32,
    pub temperature: u32,
    pub density: Density15,
}
