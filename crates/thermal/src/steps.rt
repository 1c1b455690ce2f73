// Steps 5, 6 and 9 of document 01 in 64-bit arithmetic, each equal to its definition in `heating`.
ghost use Rattle.std.specs.Prelude.{◌≡◌, ◌+◌, ◌*◌, ◌≤◌};
ghost use Rattle.base.specs.Rounding.{rounded};
ghost use Rattle.heating.specs.Steps;
ghost use Rattle.heating.specs.Steps.{unity};
ghost use Rattle.heating.specs.Inner.{
  most_above15,
  most_expansion,
  most_exponent,
  most_factor,
};

use heating::{Density20, Oil};

// 1, in the unit 10⁻¹⁰ of steps 5 to 9.
pub const UNITY: u64 = 10_000_000_000;

// Step 5: X, in 10⁻¹⁰, for d tenths of a degree.
fn exponent(b: u32, d: u32) -> u64
    requires { (b ≤ most_expansion) × (d ≤ most_above15) }
    ensures { result ≡ Steps.exponent b d }
{
    let y = b as u64 * d as u64;
    y + base::round_half_up(8 * (y * y), 100_000_000_000)
}

// Step 6: the term of number k, from the one before it, of which it is at most a sixteenth, but for the rounding.
fn next_term(u: u64, x: u64, k: u64) -> u64
    requires { (u ≤ most_exponent) × (x ≤ most_exponent) × (2 ≤ k) × (k ≤ 6) }
    ensures { (result ≡ rounded (u * x) (k * unity)) × (16 * result ≤ u + 32) }
{
    base::round_half_up(u * x, k * UNITY)
}

// Step 6: the sum of the series for the exponent x.
fn series(x: u64) -> u64
    requires { x ≤ most_exponent }
    ensures { result ≡ Steps.series x }
{
    let u2 = next_term(x, x, 2);
    let u3 = next_term(u2, x, 3);
    let u4 = next_term(u3, x, 4);
    let u5 = next_term(u4, x, 5);
    let u6 = next_term(u5, x, 6);
    UNITY - x + u2 - u3 + u4 - u5 + u6
}

// Step 6: E(d), in 10⁻¹⁰, for d tenths of a degree.
pub fn factor_at(oil: Oil, d: u32) -> u64
    requires { d ≤ most_above15 }
    ensures { (result ≡ Steps.factor oil.density.0 d) × (result ≤ most_factor) }
{
    series(exponent(oil.expansion, d))
}

// Step 9, for any temperature: the density d tenths of a degree above 15 °C, in 0.1 kg/m³.
pub fn density_at(oil: Oil, d: u32) -> u32
    requires { d ≤ most_above15 }
    ensures { result ≡ Steps.density_at oil.density.0 d }
{
    let density = oil.density;
    base::round_half_up(density.0 as u64 * factor_at(oil, d), UNITY) as u32
}

// Step 9: the density at 20 °C.
pub fn density_20(oil: Oil) -> Density20
    ensures { result.0 ≡ Steps.density20 oil.density.0 }
{
    Density20(density_at(oil, 50))
}
