// How fuel oil and its density change with temperature: steps 4, 5, 6 and 9 of document 01, with refusals 18 and 19. It has definitions
// and proofs, and no code.
#![tactic(auto)]

ghost use Rattle.std.specs.Prelude.{◌≡◌};
ghost use Rattle.heating.specs.Limits.{DensityInRange};
ghost use Rattle.heating.specs.Steps;

// The range of 19: densities at 15 °C, in 0.1 kg/m³.
pub const LOWEST_DENSITY: u32 = 9_000;

pub const HIGHEST_DENSITY: u32 = 9_900;

// A density at 15 °C and a density at 20 °C, in 0.1 kg/m³, each a type of its own: one is never taken for the other.
#[derive(Clone, Copy)]
pub struct Density15(pub u32);

#[derive(Clone, Copy)]
pub struct Density20(pub u32);

// An oil by its density at 15 °C, which is in the range of 19, with its B of step 4, in 10⁻⁹ per °C: B is found once and handed on.
#[derive(Clone, Copy)]
pub struct Oil {
    pub density: Density15,
    pub expansion: u32,
    ghost in_range: { DensityInRange density.0 },
    ghost own: { expansion ≡ Steps.expansion density.0 },
}
