// The density at 15 °C of a laboratory's report: the pairs that annexes Б.2 and Д of 002 print, the edges of 26 and 27, a tie.
use showing::show;
use std::io;
use tankcar::Report;

// The answer to a density in 0.1 kg/m³, reported at a temperature in 0.1 °C.
fn show_report(rt: &impl Print, density: u32, temperature: u32) -> io::Result<()> {
    print!(rt; "laboratory, {density} at {temperature}:")?;
    let answer = tankcar::density_at_15(Report {
        density,
        temperature,
    });
    show(rt, answer.map(|at_15| at_15.0))
}

pub(crate) fn show_all(rt: &impl Print) -> io::Result<()> {
    let reports = [
        (9300, 500),
        (9400, 500),
        (9300, 510),
        (9400, 510),
        (9330, 503),
        (9460, 402),
        (8963, 200),
        (8964, 200),
        (8965, 200),
        (9866, 200),
        (9867, 200),
        (9868, 200),
        (9173, 200),
        (8470, 900),
        (8471, 900),
        (9388, 900),
        (9389, 900),
        (9300, 199),
        (9300, 901),
        (0, 199),
    ];
    for (density, temperature) in reports {
        show_report(rt, density, temperature)?;
    }
    Ok(())
}
