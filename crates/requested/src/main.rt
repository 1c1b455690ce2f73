// Worked figures of requests (c), (d), (f), (g), (h) and (i) of document 02.
// What it must write, the file stdout, comes from the separately written code in reference/.
#![tactic(auto)]

use std::io;

mod levels; // levels.rt: mean level, V0 and tape allowance in tenths of a mm
mod permitted; // permitted.rt: the permitted error beside the mass
mod probes; // probes.rt: the readings, the sets and the cars of a portable probe
mod reports; // reports.rt: the density at 15 °C of a laboratory's report
mod sticks; // sticks.rt: the stick compared with the tape
mod strikes; // strikes.rt: cars entered in a train and struck from it

fn main(rt: HostRuntime) -> io::Result<()> {
    permitted::show_all(&rt)?;
    reports::show_all(&rt)?;
    sticks::show_all(&rt)?;
    levels::show_all(&rt)?;
    strikes::show_all(&rt)?;
    probes::show_all(&rt)?;
    Ok(())
}
