// How fuel oil and its density change with temperature: steps 4, 5, 6 and 9 of document 01, and what callers may ask of a density and a temperature.
#![tactic(auto)]

ghost use Rattle.std.specs.Prelude.{◌≡◌};
ghost use Rattle.base.specs.Refusal.{figure_told};
ghost use Rattle.heating.specs.Answers.{
  expansion_answer,
  factor_answer,
  density20_told,
  density20_answer,
};

use base::Refusal;
use heating::{Density15, Density20};

mod refusals; // refusals.rt: the limits, and the tests of 18 and 19
mod steps; // steps.rt: steps 5, 6 and 9, with B handed on

// For the crates of the grades, of the masses, of the permitted error and of the laboratory's density.
pub use refusals::{HIGHEST_TEMPERATURE, check_density, check_within};
pub use steps::{UNITY, density_20, density_at, factor_at};

// B of step 4, in 10⁻⁹ per °C, or 19.
pub fn expansion_of(density: Density15) -> Result<u32, Refusal>
    ensures { figure_told result ≡ expansion_answer density.0 }
{
    refusals::check_density(density)?;
    Ok(thermal_stored::expansion(density))
}

// E of step 6, in 10⁻¹⁰, between the temperature, in 0.1 °C, and 15 °C, or the first of 18 and 19.
pub fn factor_of(density: Density15, temperature: u32) -> Result<u64, Refusal>
    ensures { figure_told result ≡ factor_answer density.0 temperature }
{
    refusals::check_temperature_any_grade(temperature)?;
    refusals::check_density(density)?;
    let oil = thermal_stored::oil(density);
    Ok(steps::factor_at(oil, temperature - 150))
}

// The density at 20 °C of step 9, or 19.
pub fn density_at_20(density: Density15) -> Result<Density20, Refusal>
    ensures { density20_told result ≡ density20_answer density.0 }
{
    refusals::check_density(density)?;
    Ok(steps::density_20(thermal_stored::oil(density)))
}
