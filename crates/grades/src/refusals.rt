// The grades' limits in constant tables, and the tests of refusals 13 and 18 to 21.
ghost use Rattle.std.specs.Prelude.{◌≡◌, ◌||◌, [], ◌∷◌, ltb};
ghost use Rattle.base.specs.Answer.{refuse_if, first};
ghost use Rattle.base.specs.Refusal.{verdict_told};
ghost use Rattle.grading.specs.Grades.{
  by_grade,
  grade_tests,
  code_tests,
  temperature_tests,
  content_tests,
  content_tests_any_grade,
  density20_tests,
  range_tests,
};

use base::{GRADES, Refusal};
use heating::{Density15, Oil};
use thermal::HIGHEST_TEMPERATURE;

// By grade, 1 to 4, at index grade - 1: the lowest temperature in 0.1 °C, the most water and impurities in 0.01 %.
const LOWEST_TEMPERATURES: [u32; GRADES] = [200, 200, 400, 400];

const WATER: [u32; GRADES] = [30, 30, 100, 100];

const IMPURITIES: [u32; GRADES] = [10, 12, 50, 100];

// For grades 1 and 2, at index grade - 1: the greatest density at 20 °C, in 0.1 kg/m³.
const DENSITY_20: [u32; 2] = [9_550, 9_600];

// Where no grade is given: the most water, and the most impurities, in 0.01 %.
const CONTENT: u32 = 100;

// A table's entry for a grade; 0 for a grade that there is not.
fn by_grade(limits: [u32; GRADES], grade: u32) -> u32
    ensures { result ≡ by_grade limits grade }
{
    if grade < 1 || 4 < grade {
        return 0;
    }
    limits[(grade - 1) as usize]
}

// 13 for a grade.
pub(crate) fn check_grade(grade: u32) -> Result<(), Refusal>
    ensures { verdict_told result ≡ first (grade_tests grade) }
{
    thermal::check_within(Refusal::GradeOrStick, 1, 4, grade)
}

// 13 for a grade and a stick.
pub fn check_code(grade: u32, stick: u32) -> Result<(), Refusal>
    ensures { verdict_told result ≡ first (code_tests grade stick) }
{
    check_grade(grade)?;
    thermal::check_within(Refusal::GradeOrStick, 1, 2, stick)
}

// 18 for a grade's temperature in 0.1 °C.
fn check_temperature(grade: u32, temperature: u32) -> Result<(), Refusal>
    ensures { verdict_told result ≡ first (temperature_tests grade temperature) }
{
    thermal::check_within(
        Refusal::Temperature,
        by_grade(LOWEST_TEMPERATURES, grade),
        HIGHEST_TEMPERATURE,
        temperature,
    )
}

// 20, with limits for water and for impurities, all in 0.01 %.
fn check_limits(
    water_limit: u32,
    impurity_limit: u32,
    water: u32,
    impurities: u32,
) -> Result<(), Refusal>
    ensures { verdict_told result ≡ first (refuse_if 20 (ltb water_limit water || ltb impurity_limit impurities) ∷ []) }
{
    if water_limit < water || impurity_limit < impurities {
        return Err(Refusal::Content);
    }
    Ok(())
}

// 20 for a grade's water and impurities.
pub(crate) fn check_content(grade: u32, water: u32, impurities: u32) -> Result<(), Refusal>
    ensures { verdict_told result ≡ first (content_tests grade water impurities) }
{
    check_limits(
        by_grade(WATER, grade),
        by_grade(IMPURITIES, grade),
        water,
        impurities,
    )
}

// 20 for water and impurities without a grade.
pub(crate) fn check_content_any_grade(water: u32, impurities: u32) -> Result<(), Refusal>
    ensures { verdict_told result ≡ first (content_tests_any_grade water impurities) }
{
    check_limits(CONTENT, CONTENT, water, impurities)
}

// 21 for a grade and an oil.
pub fn check_density_20(grade: u32, oil: Oil) -> Result<(), Refusal>
    ensures { verdict_told result ≡ first (density20_tests grade oil.density.0) }
{
    if grade < 1 || 2 < grade {
        return Ok(());
    }
    let limit = DENSITY_20[(grade - 1) as usize];
    if limit < thermal::density_20(oil).0 {
        return Err(Refusal::Density20);
    }
    Ok(())
}

// The first of 18 to 20, of a car's oil: temperature in 0.1 °C, density at 15 °C, water and impurities in 0.01 %.
pub fn check_range(
    grade: u32,
    temperature: u32,
    density: Density15,
    water: u32,
    impurities: u32,
) -> Result<(), Refusal>
    ensures { verdict_told result ≡ first (range_tests grade temperature density.0 water impurities) }
{
    check_temperature(grade, temperature)?;
    thermal::check_density(density)?;
    check_content(grade, water, impurities)
}
