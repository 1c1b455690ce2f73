// Fuel oil from V0 to kilograms: steps 3, 7 and 8 of document 01 in 64-bit arithmetic, each equal to its definition in `kilograms`.
// Volumes are in 0.01 dm³, temperatures in 0.1 °C, masses in kg, water and impurities in 0.01 %.
#![tactic(auto)]

ghost use Rattle.std.specs.Prelude.{◌≡◌, ◌≤◌};
ghost use Rattle.heating.specs.Limits.{lowest_temperature, highest_temperature, DensityInRange};
ghost use Rattle.kilograms.specs.Steps;
ghost use Rattle.kilograms.specs.Distance.{greatest_volume};
ghost use Rattle.kilograms.specs.Inner.{
  InRange,
  MassesWorked,
  most_coefficient,
  most_hot_volume,
  most_cold_volume,
};

use heating::{Density15, Oil};
use kilograms::Masses;

// Step 3: c for a stick; 0 for a stick that there is not.
#[tactic(auto, unfolding(kilograms::specs::Steps::stick_coefficient))]
fn stick_coefficient(stick: u32) -> u32
    ensures { result ≡ Steps.stick_coefficient stick }
{
    match stick {
        1 => 100,
        2 => 121,
        _ => 0,
    }
}

// Step 3: Vt.
#[tactic(auto, using(kilograms::proofs::Bounds::hot_volume_most), unfolding(kilograms::specs::Steps::hot_volume))]
fn hot_volume(v0: u32, c: u32, temperature: u32) -> u32
    requires { (v0 ≤ greatest_volume) × (c ≤ most_coefficient) × (lowest_temperature ≤ temperature) × (temperature ≤ highest_temperature) }
    ensures { result ≡ Steps.hot_volume v0 c temperature }
{
    let swelling = 20_000_000 + (c * (temperature - 200)) as u64;
    base::round_half_up(v0 as u64 * swelling, 20_000_000) as u32
}

// Step 7: V15.
#[tactic(auto, using(kilograms::proofs::Bounds::cold_volume_most), unfolding(kilograms::specs::Steps::cold_volume))]
fn cold_volume(vt: u32, oil: Oil, temperature: u32) -> u32
    requires { (vt ≤ most_hot_volume) × (lowest_temperature ≤ temperature) × (temperature ≤ highest_temperature) }
    ensures { result ≡ Steps.cold_volume vt oil.density.0 temperature }
{
    base::round_half_up(
        vt as u64 * thermal::factor_at(oil, temperature - 150),
        thermal::UNITY,
    ) as u32
}

// Step 8: gross kg.
#[tactic(auto, using(kilograms::proofs::Bounds::gross_most), unfolding(kilograms::specs::Steps::gross))]
fn gross_mass(v15: u32, density: Density15) -> u32
    requires { (v15 ≤ most_cold_volume) × DensityInRange density.0 }
    ensures { result ≡ Steps.gross v15 density.0 }
{
    base::round_half_up(v15 as u64 * density.0 as u64, 1_000_000) as u32
}

// Step 8: net kg.
#[tactic(auto, using(kilograms::proofs::Bounds::net_le_gross), unfolding(kilograms::specs::Steps::net))]
fn net_mass(gross: u32, water: u32, impurities: u32) -> u32
    ensures { result ≡ Steps.net gross water impurities }
{
    let oil = grades::share_of_oil(water, impurities);
    base::round_half_up(gross as u64 * oil as u64, 10_000) as u32
}

// Steps 3 to 8: V15, gross and net from V0.
#[tactic(auto, using(kilograms::proofs::Bounds::stick_coefficient_most, kilograms::proofs::Bounds::hot_volume_most, kilograms::proofs::Bounds::cold_volume_most))]
pub fn masses_of(
    v0: u32,
    stick: u32,
    temperature: u32,
    oil: Oil,
    water: u32,
    impurities: u32,
) -> Masses
    requires { InRange v0 temperature oil.density.0 water impurities }
    ensures { MassesWorked v0 stick temperature oil.density.0 water impurities result }
{
    let vt = hot_volume(v0, stick_coefficient(stick), temperature);
    let v15 = cold_volume(vt, oil, temperature);
    let gross = gross_mass(v15, oil.density);
    let net = net_mass(gross, water, impurities);
    Masses { v15, gross, net }
}
