// A laboratory's density brought to 15 °C: request (d) of document 02. Densities are in 0.1 kg/m³, temperatures in 0.1 °C.
#![tactic(auto)]

ghost use Rattle.std.specs.Prelude.{◌≡◌};
ghost use Rattle.heating.specs.Limits.{DensityInRange};
ghost use Rattle.laboratory.specs.Nearest.{density_there, distance, Nearest};
ghost use Rattle.laboratory.specs.Answers.{OnlyAnswer, report_told};
ghost use Rattle.laboratory.specs.Told.{TemperatureInRange, ToldOnly};
ghost use Rattle.laboratory.specs.Card.{ReportsRight};
ghost use Rattle.laboratory.specs.Inner.{NotBelow};

use base::Refusal;
use heating::{Density15, HIGHEST_DENSITY, LOWEST_DENSITY};
use laboratory::Report;
use thermal_stored::Expansions;

// The laboratory's temperatures.
const COLDEST: u32 = 200;

const HOTTEST: u32 = 900;

// A report that 26 lets pass, beside the stored coefficients.
#[derive(Clone, Copy)]
struct Beside<'a> {
    expansions: &'a Expansions,
    report: Report,
    ghost in_range: { TemperatureInRange report },
}

impl Beside<'_> {
    // The density that a field has at the laboratory's temperature.
    #[tactic(auto, unfolding(laboratory::specs::Nearest::density_there))]
    fn density_there(&self, field: u32) -> u32
        requires { DensityInRange field }
        ensures { result ≡ density_there self.now.report field }
    {
        let oil = self.expansions.oil(Density15(field));
        thermal::density_at(oil, self.report.temperature - 150)
    }

    // The first field whose density there is not below the report, the last where there is none: found by halving, ten times at most.
    // The loop is a `while`, since both ends move: no `for` has that form.
    fn first_not_below(&self) -> u32
        ensures { NotBelow self.now.report result }
    {
        let mut low = LOWEST_DENSITY;
        let mut high = HIGHEST_DENSITY;
        while low < high {
            let middle = (low + high) / 2;
            if self.report.density <= self.density_there(middle) {
                high = middle;
            } else {
                low = middle + 1;
            }
        }
        low
    }

    // How far a field's density there lies from the density reported.
    fn distance_to(&self, field: u32) -> u32
        requires { DensityInRange field }
        ensures { result ≡ distance self.now.report field }
    {
        base::difference(self.report.density, self.density_there(field))
    }

    // The nearest field: that one, or the one before where it is no farther off.
    #[tactic(auto, using(laboratory::proofs::Halving::first_nearest, laboratory::proofs::Halving::this_nearest, laboratory::proofs::Halving::before_nearest))]
    fn nearest(&self) -> u32
        ensures { Nearest self.now.report result }
    {
        let field = self.first_not_below();
        if field == LOWEST_DENSITY {
            return field;
        }
        if self.distance_to(field - 1) <= self.distance_to(field) {
            return field - 1;
        }
        field
    }
}

// The density at 15 °C that comes nearest to a report, or the first of 26 and 27.
pub fn density_at_15(report: Report) -> Result<Density15, Refusal>
    ensures { OnlyAnswer report (report_told result) × ToldOnly report result × ReportsRight }
{
    thermal::check_within(
        Refusal::ReportTemperature,
        COLDEST,
        HOTTEST,
        report.temperature,
    )?;
    let expansions = Expansions::new();
    let beside = Beside {
        expansions: &expansions,
        report,
    };
    let field = beside.nearest();
    if 1 < beside.distance_to(field) {
        return Err(Refusal::NoSuchDensity);
    }
    Ok(Density15(field))
}
