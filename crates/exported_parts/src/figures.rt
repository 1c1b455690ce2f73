// Operations that answer one figure: the mean level, the tape allowance, the density, the expansion and the share of oil.
#![tactic(auto, using(marshalling::proofs::Handed::figure_handed))]

ghost use Rattle.dip.specs.Level.{mean_level_answer};
ghost use Rattle.dip.specs.Tape.{allowance_answer};
ghost use Rattle.heating.specs.Answers.{expansion_answer, factor_answer, density20_answer};
ghost use Rattle.grading.specs.Answers.{grade_density20_answer, grade_oil_answer, oil_answer};
ghost use Rattle.marshalling.specs.Handed.{length_is, sized, figure_left, Handed};

use heating::Density15;
use marshalling::{BAD_LENGTH, hand_over_figure};

// The mean level, in tenths of a mm, of so many of the four readings in mm.
#[unsafe(no_mangle)]
pub extern "C" fn rack_mean_level(count: u32, readings: &[u32], level: &mut u64) -> u32
    ensures { Handed figure_left (sized (length_is 4 readings.now) (mean_level_answer count readings.now)) result level.old level.new }
{
    let Ok(places) = <[u32; 4]>::try_from(readings) else {
        return BAD_LENGTH;
    };
    hand_over_figure(level::mean_level(count, places), level)
}

// The tape allowance at a level in tenths of a mm, in 0.01 mm.
#[unsafe(no_mangle)]
pub extern "C" fn rack_tape_allowance(level: u64, allowance: &mut u32) -> u32
    ensures { Handed figure_left (allowance_answer level) result allowance.old allowance.new }
{
    hand_over_figure(tape::tape_allowance(level), allowance)
}

// B of step 4, in 10⁻⁹ per °C, of a density at 15 °C in 0.1 kg/m³.
#[unsafe(no_mangle)]
pub extern "C" fn rack_expansion_of(density: u32, expansion: &mut u32) -> u32
    ensures { Handed figure_left (expansion_answer density) result expansion.old expansion.new }
{
    hand_over_figure(thermal::expansion_of(Density15(density)), expansion)
}

// E of step 6, in 10⁻¹⁰, between a temperature in 0.1 °C and 15 °C.
#[unsafe(no_mangle)]
pub extern "C" fn rack_factor_of(density: u32, temperature: u32, factor: &mut u64) -> u32
    ensures { Handed figure_left (factor_answer density temperature) result factor.old factor.new }
{
    hand_over_figure(thermal::factor_of(Density15(density), temperature), factor)
}

// The density at 20 °C, in 0.1 kg/m³, of a density at 15 °C.
#[unsafe(no_mangle)]
pub extern "C" fn rack_density_at_20(density: u32, density_20: &mut u32) -> u32
    ensures { Handed figure_left (density20_answer density) result density_20.old density_20.new }
{
    let answer = thermal::density_at_20(Density15(density));
    hand_over_figure(answer.map(|at_20| at_20.0), density_20)
}

// The same for a grade.
#[unsafe(no_mangle)]
pub extern "C" fn rack_density_at_20_of_grade(grade: u32, density: u32, density_20: &mut u32) -> u32
    ensures { Handed figure_left (grade_density20_answer grade density) result density_20.old density_20.new }
{
    let answer = grades::density_at_20_of_grade(grade, Density15(density));
    hand_over_figure(answer.map(|at_20| at_20.0), density_20)
}

// What is left beside water and impurities of a grade, all in 0.01 %.
#[unsafe(no_mangle)]
pub extern "C" fn rack_oil_share(grade: u32, water: u32, impurities: u32, share: &mut u32) -> u32
    ensures { Handed figure_left (grade_oil_answer grade water impurities) result share.old share.new }
{
    hand_over_figure(grades::oil_share(grade, water, impurities), share)
}

// The same where no grade is given.
#[unsafe(no_mangle)]
pub extern "C" fn rack_oil_share_any_grade(water: u32, impurities: u32, share: &mut u32) -> u32
    ensures { Handed figure_left (oil_answer water impurities) result share.old share.new }
{
    hand_over_figure(grades::oil_share_any_grade(water, impurities), share)
}
