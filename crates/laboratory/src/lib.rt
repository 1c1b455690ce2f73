// The density of a laboratory that reports it at its own temperature: request (d) of document 02. It has definitions and proofs, and no
// code.
#![tactic(auto)]

// What a laboratory reports: a density in 0.1 kg/m³, and the temperature at which it was taken in 0.1 °C.
#[derive(Clone, Copy)]
pub struct Report {
    pub density: u32,
    pub temperature: u32,
}
