// The level in tenths of a millimetre, request (g) of document 02: the mean of two and of three readings, V0 on the table of document 01's
// sheet, and the tape allowance.
use showing::{one_table, places_of, show};
use std::io;

// Readings in mm, the mean level in tenths of a mm.
fn show_mean(rt: &impl Print, count: u32, readings: [u32; 4]) -> io::Result<()> {
    print!(rt; "mean level:")?;
    show(rt, tankcar::mean_level(count, readings))
}

// V0, in 0.01 dm³, at a level in tenths of a mm over water in mm.
fn show_volume(rt: &impl Print, level: u64, water_level: u32) -> io::Result<()> {
    print!(rt; "volume at {level}:")?;
    let levels = places_of([0, 1000, 2000, 3000]);
    let capacities = places_of([0, 20000, 50000, 70000]);
    let tables = one_table(1, 4, &levels, &capacities);
    let answer = tankcar::checked_volume(&tables, 1, level, water_level);
    show(rt, answer)
}

// The tape allowance, in 0.01 mm, at a level in tenths of a mm.
fn show_allowance(rt: &impl Print, level: u64) -> io::Result<()> {
    print!(rt; "tape at {level}:")?;
    show(rt, tankcar::tape_allowance(level))
}

pub(crate) fn show_all(rt: &impl Print) -> io::Result<()> {
    show_mean(rt, 2, [1500, 1501, 0, 0])?;
    show_mean(rt, 4, [1500, 1504, 1501, 1502])?;
    show_mean(rt, 4, [1500, 1503, 1503, 1502])?;
    show_mean(rt, 2, [0, 1, 0, 0])?;
    show_mean(rt, 2, [4294967295, 4294967295, 0, 0])?;
    for (level, water_level) in [
        (10, 0),
        (15005, 1500),
        (15005, 1501),
        (30000, 0),
        (30001, 0),
    ] {
        show_volume(rt, level, water_level)?;
    }
    for level in [9, 10000, 10001, 36001] {
        show_allowance(rt, level)?;
    }
    Ok(())
}
