// A probe's numbers in tenths. No product and no sum of floats decides a digit: the bits of an f32 give two whole numbers, and the rest is done with these.
#![tactic(auto)]

ghost use Rattle.std.specs.Prelude.{◌≡◌, ◌^◌};
ghost use Rattle.base.specs.Refusal.{figure_told};
ghost use Rattle.probe_spec.specs.Tenths.{tenths_answer, value_of, set_answer, set_told};
ghost use Rattle.probe_spec.specs.Nearest.{TenthsOfFraction, FloatsRight};
ghost use Rattle.probe_spec.specs.ProbeCard.{ProbeRight};

use base::{LARGEST, Refusal};
use heating::Density15;
use probe_spec::{ProbeReading, ProbeSet, SetTenths};

// The largest number of a field, here in tenths, in 64 bits.
const MOST: u64 = LARGEST as u64;

// significand / 2^shift in tenths, or 32: its twentieths, cut to a whole number, and half of one more than these, cut, so that a half goes up.
// 20 * significand is below 2^37, and a shift by 64 or more leaves 0.
fn nearest_tenths(significand: u32, shift: u32) -> Result<u32, Refusal>
    ensures { TenthsOfFraction significand (2 ^ shift) (figure_told result) }
{
    if shift >= 64 {
        return Ok(0);
    }
    let twentieths = (significand as u64 * 20) >> shift;
    let n = (twentieths + 1) / 2;
    if MOST < n {
        return Err(Refusal::ProbeTenths);
    }
    Ok(n as u32)
}

// 31, 32, or the tenths. After the sign come 8 bits of exponent and 23 of digits. The number is significand * 2^(exponent - 150), where the significand is
// the digits after a leading one; at exponent 0 it is the digits alone, over 2^149. From exponent 151 on it is 2^24 or more, and 255 is an infinity's.
fn tenths(x: f32) -> Result<u32, Refusal>
    ensures { figure_told result ≡ tenths_answer x }
{
    if x >= 0.0 {
        let bits = f32::to_bits(x);
        let exponent = (bits >> 23) & 0xff;
        let digits = bits & 0x7fffff;
        if exponent == 0 {
            return nearest_tenths(digits, 149);
        }
        if exponent <= 150 {
            return nearest_tenths(digits + 0x800000, 150 - exponent);
        }
        if exponent < 255 {
            return Err(Refusal::ProbeTenths);
        }
    }
    Err(Refusal::ProbeNumber)
}

fn value(reading: ProbeReading) -> f32
    ensures { result ≡ value_of reading }
{
    match reading {
        ProbeReading::Level(x) | ProbeReading::Temperature(x) | ProbeReading::Density(x) => x,
    }
}

// A reading in tenths, or 31 or 32.
pub fn reading_tenths(reading: ProbeReading) -> Result<u32, Refusal>
    ensures { (figure_told result ≡ tenths_answer (value_of reading)) × FloatsRight × ProbeRight }
{
    tenths(value(reading))
}

// A set in tenths, or the first of 31 and 32 of its level, its temperature and its density.
pub fn set_tenths(set: ProbeSet) -> Result<SetTenths, Refusal>
    ensures { set_told result ≡ set_answer set }
{
    Ok(SetTenths {
        level: tenths(set.level)?,
        temperature: tenths(set.temperature)?,
        density: Density15(tenths(set.density)?),
    })
}
