// The readings, the sets and the cars of a portable probe, request (i) of document 02, on the table of document 01's sheet.
use showing::{one_table, places_of, show, show_car, show_figures};
use std::io;
use tankcar::{Errors, ProbeCar, ProbeReading, ProbeSet, Train};

// The first car of document 01's sheet, of a number and a stick, as a probe reads it at a level in mm.
fn car_of(number: u32, stick: u32, level: f32) -> ProbeCar {
    ProbeCar {
        number,
        kind: 1,
        grade: 3,
        stick,
        water_level: 0,
        water: 50,
        impurities: 20,
        set: ProbeSet {
            level,
            temperature: 60.0,
            density: 950.0,
        },
    }
}

fn show_reading(rt: &impl Print, reading: ProbeReading) -> io::Result<()> {
    print!(rt; "tenths:")?;
    show(rt, tankcar::reading_tenths(reading))
}

fn show_set(rt: &impl Print, set: ProbeSet) -> io::Result<()> {
    print!(rt; "set:")?;
    match tankcar::set_tenths(set) {
        Ok(t) => println!(rt; " {} {} {}", t.level, t.temperature, t.density.0),
        Err(refusal) => println!(rt; " refused {refusal}"),
    }
}

// A probe's car by itself.
fn show_alone(rt: &impl Print, car: ProbeCar) -> io::Result<()> {
    let levels = places_of([0, 1000, 2000, 3000]);
    let capacities = places_of([0, 20000, 50000, 70000]);
    let tables = one_table(1, 4, &levels, &capacities);
    let answer = tankcar::work_out_probe(&tables, car);
    print!(rt; "probe:")?;
    show_car(rt, answer)
}

// The train with a probe's car entered.
fn entered(rt: &impl Print, train: Train, car: ProbeCar) -> io::Result<Train> {
    let levels = places_of([0, 1000, 2000, 3000]);
    let capacities = places_of([0, 20000, 50000, 70000]);
    let tables = one_table(1, 4, &levels, &capacities);
    let step = train.enter_probe(&tables, car);
    print!(rt; "probe entered:")?;
    show_car(rt, step.answer)?;
    Ok(step.train)
}

// The limit of the permitted error beside the figures of a probe's car.
fn show_limit(rt: &impl Print, car: ProbeCar) -> io::Result<()> {
    let levels = places_of([0, 1000, 2000, 3000]);
    let capacities = places_of([0, 20000, 50000, 70000]);
    let errors = Errors {
        capacity: 5000,
        density: 1600,
        processing: 500,
        density_temperature: 5,
        oil_temperature: 5,
        level: 30,
    };
    print!(rt; "probe's limit:")?;
    let tables = one_table(1, 4, &levels, &capacities);
    match tankcar::permitted_error_probe(&tables, car, errors) {
        Ok(permitted) => {
            show_figures(rt, permitted.figures)?;
            println!(rt; " {}", permitted.limit)
        }
        Err(refusal) => println!(rt; " refused {refusal}"),
    }
}

pub(crate) fn show_all(rt: &impl Print) -> io::Result<()> {
    let infinity = 1.0f32 / 0.0;
    show_reading(rt, ProbeReading::Level(0.35))?;
    show_reading(rt, ProbeReading::Temperature(0.25))?;
    show_reading(rt, ProbeReading::Density(9999999.0))?;
    show_reading(rt, ProbeReading::Level(10000000.0))?;
    show_reading(rt, ProbeReading::Level(-0.0))?;
    show_reading(rt, ProbeReading::Level(infinity))?;
    let car = car_of(1, 1, 1500.5);
    show_set(rt, car.set)?;
    show_set(
        rt,
        ProbeSet {
            level: 10000000.0,
            temperature: -1.0,
            density: 950.0,
        },
    )?;
    show_alone(rt, car_of(50000001, 1, 1500.0))?;
    show_alone(rt, car_of(50000001, 2, 1500.0))?;
    show_alone(rt, car_of(50000001, 1, 1500.25))?;
    show_alone(rt, car_of(50000001, 3, 1500.0))?;
    show_alone(rt, car_of(0, 1, -1.0))?;
    show_limit(rt, car_of(50000001, 1, 1500.0))?;
    let one = entered(rt, Train::empty(), car_of(1, 1, 10000000.0))?;
    let two = entered(rt, one, car_of(1, 1, 1500.0))?;
    let three = entered(rt, two, car_of(1, 1, 1500.0))?;
    println!(rt; "held: {}", three.cars.held)
}
