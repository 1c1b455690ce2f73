// Cars entered in a train and struck from it, request (h) of document 02, on the table of document 01's sheet.
use showing::{one_table, places_of, show, show_car};
use std::io;
use tankcar::{Car, Density15, Totals, Train};

// The first car of document 01's sheet, of a number and a grade, at a level in mm.
fn car_of(number: u32, grade: u32, level: u32) -> Car {
    Car {
        number,
        kind: 1,
        grade,
        stick: 1,
        count: 2,
        readings: [level, level, 0, 0],
        water_level: 0,
        temperature: 600,
        density: Density15(9500),
        water: 50,
        impurities: 20,
    }
}

// The train with a car entered.
fn entered(rt: &impl Print, train: Train, car: Car) -> io::Result<Train> {
    let levels = places_of([0, 1000, 2000, 3000]);
    let capacities = places_of([0, 20000, 50000, 70000]);
    let tables = one_table(1, 4, &levels, &capacities);
    let step = train.enter(&tables, car);
    print!(rt; "entered:")?;
    show_car(rt, step.answer)?;
    Ok(step.train)
}

// The train with a number struck.
fn struck(rt: &impl Print, train: Train, number: u32) -> io::Result<Train> {
    let step = train.strike(number);
    print!(rt; "struck:")?;
    show(rt, step.answer)?;
    Ok(step.train)
}

// Accepted cars, gross and net in kg.
fn show_totals(rt: &impl Print, title: &str, t: Totals) -> io::Result<()> {
    println!(rt; "{title}: {} {} {}", t.accepted, t.gross, t.net)
}

pub(crate) fn show_all(rt: &impl Print) -> io::Result<()> {
    let one = entered(rt, Train::empty(), car_of(1, 3, 1500))?;
    let two = entered(rt, one, car_of(2, 4, 1000))?;
    let refused_car = entered(rt, two, car_of(3, 4, 3001))?;
    let typed_twice = entered(rt, refused_car, car_of(1, 4, 1000))?;
    let without_one = struck(rt, typed_twice, 1)?;
    let again = struck(rt, without_one, 1)?;
    let without_refused = struck(rt, again, 3)?;
    let none = struck(rt, without_refused, 0)?;
    let last = entered(rt, none, car_of(1, 3, 1510))?;
    println!(rt; "held: {}", last.cars.held)?;
    show_totals(rt, "totals", last.sums.all)?;
    show_totals(rt, "grade 3", last.sums.grades[2])?;
    show_totals(rt, "grade 4", last.sums.grades[3])
}
