// A laboratory's density brought to 15 °C for C and Rust: on numbers, as in `exported_parts`.
#![tactic(auto)]

ghost use Rattle.laboratory.specs.Nearest.{report_of};
ghost use Rattle.exported_laboratory.specs.Layout.{ReportHanded};

use laboratory::Report;

// The density at 15 °C that comes nearest to a reported density; both in 0.1 kg/m³, the laboratory's temperature in 0.1 °C.
#[unsafe(no_mangle)]
pub extern "C" fn rack_density_at_15(reported: u32, temperature: u32, density: &mut u32) -> u32
    ensures { ReportHanded (report_of reported temperature) result density.old density.new }
{
    let report = Report {
        density: reported,
        temperature,
    };
    match reducing::density_at_15(report) {
        Ok(figure) => {
            *density = figure.0;
            0
        }
        Err(refusal) => refusal.number(),
    }
}
