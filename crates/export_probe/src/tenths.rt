// A probe's readings and sets in tenths.
ghost use Rattle.probe_spec.specs.Tenths.{tenths_answer, set_answer};
ghost use Rattle.marshalling.specs.Handed.{length_is, sized, Handed, figure_left, figures_left};
ghost use Rattle.marshalling.specs.Layout.{set_of};
ghost use Rattle.export_probe.specs.Set.{set_count};

use marshalling::BAD_LENGTH;
use probe_spec::{ProbeReading, ProbeSet};

// How many numbers the tenths of a set are.
const SET: usize = 3;

// A reading, whichever it is, in tenths.
#[tactic(auto, using(marshalling::proofs::Handed::figure_handed))]
#[unsafe(no_mangle)]
pub extern "C" fn rack_reading_tenths(reading: f32, tenths: &mut u32) -> u32
    ensures { Handed figure_left (tenths_answer reading) result tenths.old tenths.new }
{
    marshalling::hand_over_figure(probe::reading_tenths(ProbeReading::Level(reading)), tenths)
}

// A set in tenths: level, temperature, density.
#[unsafe(no_mangle)]
pub extern "C" fn rack_set_tenths(
    level: f32,
    temperature: f32,
    density: f32,
    tenths: &mut [u32],
) -> u32
    ensures { Handed figures_left (sized (length_is set_count tenths.old) (set_answer (set_of level temperature density))) result tenths.old tenths.new }
{
    if tenths.len() != SET {
        return BAD_LENGTH;
    }
    let set = ProbeSet {
        level,
        temperature,
        density,
    };
    match probe::set_tenths(set) {
        Ok(t) => {
            tenths.copy_from_slice(&[t.level, t.temperature, t.density.0]);
            0
        }
        Err(refusal) => refusal.number(),
    }
}
