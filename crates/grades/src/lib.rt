// The grades' limits (002, table 5): refusals 13 and 18 to 21 of document 01, the share of oil, and what callers may ask of a grade's fields.
#![tactic(auto)]

ghost use Rattle.std.specs.Prelude.{◌≡◌};
ghost use Rattle.base.specs.Refusal.{figure_told};
ghost use Rattle.heating.specs.Answers.{density20_told};
ghost use Rattle.grading.specs.Grades.{oil_share};
ghost use Rattle.grading.specs.Answers.{grade_density20_answer, grade_oil_answer, oil_answer};

use base::Refusal;
use heating::{Density15, Density20};

mod refusals; // refusals.rt: the limits, and the tests of the refusals

// For the crate that works out a whole car: the pieces of its list of refusals.
pub use refusals::{check_code, check_density_20, check_range};

// What is left beside water and impurities, all in 0.01 %; 0 where they are more than all.
pub fn share_of_oil(water: u32, impurities: u32) -> u32
    ensures { result ≡ oil_share water impurities }
{
    10_000u32.saturating_sub(water).saturating_sub(impurities)
}

// The density at 20 °C of step 9 for a grade, or the first of 13, 19 and 21.
pub fn density_at_20_of_grade(grade: u32, density: Density15) -> Result<Density20, Refusal>
    ensures { density20_told result ≡ grade_density20_answer grade density.0 }
{
    refusals::check_grade(grade)?;
    thermal::check_density(density)?;
    let oil = thermal_stored::oil(density);
    refusals::check_density_20(grade, oil)?;
    Ok(thermal::density_20(oil))
}

// The share of oil for a grade, in 0.01 %, or the first of 13 and 20.
pub fn oil_share(grade: u32, water: u32, impurities: u32) -> Result<u32, Refusal>
    ensures { figure_told result ≡ grade_oil_answer grade water impurities }
{
    refusals::check_grade(grade)?;
    refusals::check_content(grade, water, impurities)?;
    Ok(share_of_oil(water, impurities))
}

// The same where no grade is given, or 20.
pub fn oil_share_any_grade(water: u32, impurities: u32) -> Result<u32, Refusal>
    ensures { figure_told result ≡ oil_answer water impurities }
{
    refusals::check_content_any_grade(water, impurities)?;
    Ok(share_of_oil(water, impurities))
}
