// The stick, at a level in tenths of a mm, compared with the tape: a half both ways, 2 mm and beyond, no difference, 28 and 29.
use std::io;
use tankcar::{Comparison, TAPE_READINGS};

// Twenty readings of one level in mm, but for the first two.
fn tape_of(first: u32, second: u32, others: u32) -> [u32; TAPE_READINGS] {
    let mut readings = [others; TAPE_READINGS];
    readings[0] = first;
    readings[1] = second;
    readings
}

// The difference in 0.01 mm with its sign, whether it passes, and the tape allowance in 0.01 mm.
fn show_comparison(rt: &impl Print, x: Comparison) -> io::Result<()> {
    let sign = if x.difference.negative { " minus" } else { "" };
    let outcome = if x.passes { "passes" } else { "fails" };
    println!(rt; "{sign} {} {outcome} {}", x.difference.size, x.allowance)
}

fn show(rt: &impl Print, stick: u64, count: u32, readings: [u32; TAPE_READINGS]) -> io::Result<()> {
    print!(rt; "stick, {stick} and {count} readings:")?;
    match tankcar::stick_against_tape(stick, count, readings) {
        Ok(x) => show_comparison(rt, x),
        Err(refusal) => println!(rt; " refused {refusal}"),
    }
}

pub(crate) fn show_all(rt: &impl Print) -> io::Result<()> {
    show(rt, 15000, 16, tape_of(1501, 1501, 1500))?;
    show(rt, 15000, 16, tape_of(1499, 1499, 1500))?;
    show(rt, 15001, 16, tape_of(1501, 1501, 1500))?;
    show(rt, 15000, 12, tape_of(1501, 1500, 1500))?;
    show(rt, 15000, 10, tape_of(1498, 1498, 1498))?;
    show(rt, 15020, 20, tape_of(1500, 1500, 1500))?;
    show(rt, 15021, 20, tape_of(1500, 1500, 1500))?;
    show(rt, 15000, 10, tape_of(1497, 1498, 1498))?;
    show(rt, 15000, 20, tape_of(1503, 1502, 1502))?;
    show(rt, 10000, 20, tape_of(1000, 1000, 1000))?;
    show(rt, 10001, 20, tape_of(1000, 1000, 1000))?;
    show(rt, 15000, 9, tape_of(1500, 1500, 1500))?;
    show(rt, 0, 21, tape_of(1500, 1500, 1500))?;
    show(rt, 9, 10, tape_of(1500, 1500, 1500))?;
    show(rt, 36001, 10, tape_of(1500, 1500, 1500))?;
    show(rt, 15000, 10, tape_of(0, 1500, 1500))?;
    Ok(())
}
