// Figures of document 01 that are computed and not proved one by one, and annex Д of 002 where its roundings allow.
// What it must write, the file stdout, comes from the separately written code in reference/.
#![tactic(auto)]

use showing::{one_table, places_of, say, show, show_car};
use std::io;
use tankcar::{Car, Density15, LEAST_BUFFER};

// The density at 20 °C for a grade, in 0.1 kg/m³.
fn show_density(rt: &impl Print, grade: u32, density: u32) -> io::Result<()> {
    print!(rt; "density at 20, grade {grade} {density}:")?;
    let answer = tankcar::density_at_20_of_grade(grade, Density15(density));
    show(rt, answer.map(|at_20| at_20.0))
}

// B and E of annex Д's oil.
fn show_expansion(rt: &impl Print, density: u32, temperature: u32) -> io::Result<()> {
    print!(rt; "annex D, B:")?;
    show(rt, tankcar::expansion_of(Density15(density)))?;
    print!(rt; "annex D, E:")?;
    show(rt, tankcar::factor_of(Density15(density), temperature))
}

// Annex Д's car, with the row 0 and 0 that 01 asks of a table.
fn annex_car() -> Car {
    Car {
        number: 1,
        kind: 85,
        grade: 4,
        stick: 1,
        count: 2,
        readings: [2904, 2904, 0, 0],
        water_level: 100,
        temperature: 523,
        density: Density15(9632),
        water: 100,
        impurities: 100,
    }
}

// The answer to a sheet of a few bytes.
fn show_sheet(rt: &impl Print, text: &[u8]) -> io::Result<()> {
    let mut out = [0u8; LEAST_BUFFER];
    let reply = tankcar::answer_sheet(text, &mut out);
    let length = reply.length;
    say(rt, &out[..length])
}

fn show_annex(rt: &impl Print) -> io::Result<()> {
    show_expansion(rt, 9632, 523)?;
    let levels = places_of([0, 100, 2900, 2910]);
    let capacities = places_of([0, 435, 72959, 73080]);
    let tables = one_table(85, 4, &levels, &capacities);
    print!(rt; "annex D, car:")?;
    show_car(rt, tankcar::work_out(&tables, annex_car()))
}

fn main(rt: HostRuntime) -> io::Result<()> {
    for (grade, density) in [(1, 9584), (1, 9585), (2, 9634), (2, 9635), (3, 9900)] {
        show_density(&rt, grade, density)?;
    }
    show_annex(&rt)?;
    show_sheet(&rt, b"")?;
    show_sheet(
        &rt,
        b"T        1        2\nR        0        0\nR        1        1\nE        0\n",
    )
}
