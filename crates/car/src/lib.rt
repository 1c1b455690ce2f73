// A car: its refusals in the listed order, its six figures, its exact value, and the rack card. It has definitions and proofs, and no code.
#![tactic(auto)]

use heating::Density15;
use probe_spec::ProbeSet;

// A car's fields as on its C line: type (kind), grade, stick, number of readings (count), readings and water level in mm,
// oil temperature in 0.1 °C, density at 15 °C in 0.1 kg/m³, water and impurities in 0.01 %.
#[derive(Clone, Copy)]
pub struct Car {
    pub number: u32,
    pub kind: u32,
    pub grade: u32,
    pub stick: u32,
    pub count: u32,
    pub readings: [u32; 4],
    pub water_level: u32,
    pub temperature: u32,
    pub density: Density15,
    pub water: u32,
    pub impurities: u32,
}

// A car that a portable probe read: a set of level, temperature and density stands for readings, temperature and density.
#[derive(Clone, Copy)]
pub struct ProbeCar {
    pub number: u32,
    pub kind: u32,
    pub grade: u32,
    pub stick: u32,
    pub water_level: u32,
    pub water: u32,
    pub impurities: u32,
    pub set: ProbeSet,
}

// What is measured of a car, of which its figures are worked out: the mean level, in tenths of a mm, in place of the readings.
#[derive(Clone, Copy)]
pub struct Measured {
    pub kind: u32,
    pub grade: u32,
    pub stick: u32,
    pub level: u64,
    pub water_level: u32,
    pub temperature: u32,
    pub density: Density15,
    pub water: u32,
    pub impurities: u32,
}

// Readings of a level, in mm: how many are given, and four places for them.
#[derive(Clone, Copy)]
pub struct Readings {
    pub count: u32,
    pub places: [u32; 4],
}

// A car as its answers go by it, dipped or read by a probe: its number, its readings where it was dipped, and what is measured of it.
#[derive(Clone, Copy)]
pub struct HandedIn {
    pub number: u32,
    pub readings: Option<Readings>,
    pub measured: Measured,
}

// The six figures: car number, mean level in tenths of a mm, V0 and V15 in 0.01 dm³, gross and net in kg.
#[derive(Clone, Copy)]
pub struct Figures {
    pub number: u32,
    pub level: u32,
    pub v0: u32,
    pub v15: u32,
    pub gross: u32,
    pub net: u32,
}
