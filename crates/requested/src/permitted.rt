// The permitted error beside the mass: the worked figures of request (c) of document 02, on the tables of document 01's sheet, of annex Д
// of 002, and on two that show one rounding and a V0 of 0.
use showing::{one_table, places_of, show_figures};
use std::io;
use tankcar::{Car, Density15, Errors, Permitted};

// Up to four rows of one table of type 1; row 0 is 0 and 0.
#[derive(Clone, Copy)]
struct Rows {
    count: u32,
    levels: [u32; 4],
    capacities: [u32; 4],
}

// The first car of document 01's sheet with two readings, over water, in mm.
fn dipped_car(first: u32, second: u32, water_level: u32) -> Car {
    Car {
        number: 50000001,
        kind: 1,
        grade: 3,
        stick: 1,
        count: 2,
        readings: [first, second, 0, 0],
        water_level,
        temperature: 600,
        density: Density15(9500),
        water: 50,
        impurities: 20,
    }
}

// The same at a level in mm.
fn rack_car(level: u32, water_level: u32) -> Car {
    dipped_car(level, level, water_level)
}

// Annex Д's car, on a table of type 1.
fn annex_car() -> Car {
    Car {
        number: 1,
        kind: 1,
        grade: 4,
        stick: 1,
        count: 2,
        readings: [2904, 2904, 0, 0],
        water_level: 100,
        temperature: 523,
        density: Density15(9632),
        water: 100,
        impurities: 100,
    }
}

// Shares in 0.0001 %, temperatures in 0.1 °C, the level in 0.1 mm.
fn errors_of(shares: [u32; 3], temperatures: [u32; 2], level: u32) -> Errors {
    Errors {
        capacity: shares[0],
        density: shares[1],
        processing: shares[2],
        density_temperature: temperatures[0],
        oil_temperature: temperatures[1],
        level,
    }
}

fn show_limit(rt: &impl Print, p: Permitted) -> io::Result<()> {
    let within = if p.within { "within" } else { "not within" };
    show_figures(rt, p.figures)?;
    println!(rt; " {} {within}", p.limit)
}

// The six figures, the limit, and whether it is within.
fn show(rt: &impl Print, rows: Rows, car: Car, errors: Errors) -> io::Result<()> {
    let levels = places_of(rows.levels);
    let capacities = places_of(rows.capacities);
    let tables = one_table(1, rows.count, &levels, &capacities);
    print!(rt; "permitted error:")?;
    match tankcar::permitted_error(&tables, car, errors) {
        Ok(permitted) => show_limit(rt, permitted),
        Err(refusal) => println!(rt; " refused {refusal}"),
    }
}

// The first car of document 01's sheet, on a row, half a mm and 1 mm above one, with smaller errors and with none; one rounding twice,
// and a level term of 10,000 and above.
fn show_rack(rt: &impl Print) -> io::Result<()> {
    let rack = Rows {
        count: 4,
        levels: [0, 1000, 2000, 3000],
        capacities: [0, 20000, 50000, 70000],
    };
    let ordinary = errors_of([5000, 1600, 500], [5, 5], 30);
    let level_alone = errors_of([0, 0, 0], [0, 0], 100);
    show(rt, rack, rack_car(1500, 0), ordinary)?;
    show(rt, rack, rack_car(1000, 0), ordinary)?;
    show(rt, rack, dipped_car(1000, 1001, 0), ordinary)?;
    show(rt, rack, rack_car(1001, 0), ordinary)?;
    show(
        rt,
        rack,
        rack_car(2000, 0),
        errors_of([2500, 500, 500], [2, 2], 20),
    )?;
    show(rt, rack, rack_car(1500, 0), errors_of([0, 0, 0], [0, 0], 0))?;
    show(rt, rack, rack_car(1500, 0), errors_of([0, 0, 0], [1, 0], 0))?;
    show(rt, rack, rack_car(1000, 0), level_alone)?;
    show(rt, rack, rack_car(999, 0), level_alone)?;
    Ok(())
}

// Annex Д's car; a level term that is 10,000 by R alone; V0 of 0 and of 1.
pub(crate) fn show_all(rt: &impl Print) -> io::Result<()> {
    show_rack(rt)?;
    let annex = Rows {
        count: 4,
        levels: [0, 100, 2900, 2910],
        capacities: [0, 435, 72959, 73080],
    };
    show(
        rt,
        annex,
        annex_car(),
        errors_of([5000, 1586, 500], [5, 5], 30),
    )?;
    let bent = Rows {
        count: 3,
        levels: [0, 1000, 2000, 0],
        capacities: [0, 1000, 31000, 0],
    };
    show(
        rt,
        bent,
        rack_car(1989, 971),
        errors_of([0, 0, 0], [0, 0], 99),
    )?;
    let none = errors_of([0, 0, 0], [0, 0], 0);
    let flat = Rows {
        count: 2,
        levels: [0, 3600, 0, 0],
        capacities: [0, 1, 0, 0],
    };
    show(rt, flat, rack_car(17, 0), none)?;
    show(rt, flat, rack_car(18, 0), none)?;
    show(rt, flat, rack_car(19, 18), none)?;
    Ok(())
}
