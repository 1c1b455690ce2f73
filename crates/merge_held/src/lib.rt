// The cars that a sheet still holds behind its last line, by the numbers of its C and K lines.
#![tactic(auto)]

ghost use Rattle.merge_held.specs.Inner.{HeldIn};

use base::MOST_CARS;
use holding::{CAR_MARK, LINE_PLACES};
use merge_lines::ReadSheet;

mod keep; // keep.rt: a car kept or taken out, in two arrays

// The cars held, in sheet order: their numbers, and which lines behind the tables they are, counted from 0.
#[derive(Clone, Copy)]
pub struct Held {
    pub numbers: [u32; MOST_CARS],
    pub places: [u32; MOST_CARS],
    pub count: usize,
}

// The cars held behind the last line of a sheet.
pub fn held_cars(sheet: &ReadSheet<'_>) -> Held
    ensures { HeldIn sheet.now result }
{
    let mut numbers = [0u32; MOST_CARS];
    let mut places = [0u32; MOST_CARS];
    let mut count = 0;
    for i in 0..sheet.lines {
        let number = sheet.fields[LINE_PLACES * i + 1];
        let is_car = sheet.fields[LINE_PLACES * i] == CAR_MARK;
        if is_car {
            count = keep::enter(&mut numbers, &mut places, count, number, i as u32);
        } else {
            count = keep::strike(&mut numbers, &mut places, count, number);
        }
    }
    Held {
        numbers,
        places,
        count,
    }
}
