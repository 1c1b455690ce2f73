// B of step 4 looked up, with no division: 901 stored numbers, one for each density field from 9,000 to 9,900. Request (j) of document 02.
#![tactic(auto)]

ghost use Rattle.std.specs.Prelude.{◌≡◌};
ghost use Rattle.heating.specs.Limits.{DensityInRange};
ghost use Rattle.thermal_stored.specs.Stored.{Stored};
ghost use Rattle.thermal_stored.specs.Inner.{LookedUp};

use heating::{Density15, HIGHEST_DENSITY, LOWEST_DENSITY, Oil};

mod values; // values.rt: the constant array

// How many there are.
pub const FIELDS: usize = 901;

// All of them. A constant array is built anew where it is used, so they are made once for a sheet or an operation and lent, and not copied.
#[derive(Drop)]
pub struct Expansions {
    numbers: [u32; FIELDS],
    ghost stored: { Stored numbers },
}

impl Expansions {
    pub fn new() -> Expansions {
        Expansions {
            numbers: values::EXPANSIONS,
        }
    }

    // B of a density, in 10⁻⁹ per °C. Where 19 turns the density away it is 0, which nothing takes: a car's B is looked up before its tests.
    pub fn look_up(&self, density: Density15) -> u32
        ensures { LookedUp density.0 result }
    {
        if density.0 < LOWEST_DENSITY || HIGHEST_DENSITY < density.0 {
            return 0;
        }
        let place = (density.0 - LOWEST_DENSITY) as usize;
        self.numbers[place]
    }

    // The oil of a density.
    pub fn oil(&self, density: Density15) -> Oil
        requires { DensityInRange density.0 }
        ensures { result.density ≡ density }
    {
        let expansion = self.look_up(density);
        Oil { density, expansion }
    }
}

// B of one density, and the oil of one, for a caller with no more than that.
pub fn expansion(density: Density15) -> u32
    ensures { LookedUp density.0 result }
{
    Expansions::new().look_up(density)
}

pub fn oil(density: Density15) -> Oil
    requires { DensityInRange density.0 }
    ensures { result.density ≡ density }
{
    Expansions::new().oil(density)
}
