// What the test programs share: an answer shown on a line, a car's figures, and a table of four rows.
#![tactic(auto)]

use base::Refusal;
use car::Figures;
use std::fmt::Display;
use std::io::{self, Write};
use table::{PLACES, Tables};

// The bytes of a sheet or of an answer as they are.
pub fn say(rt: &impl Print, text: &[u8]) -> io::Result<()> {
    io::writer(rt).write_all(text)
}

// A figure, or the refusal's number, to the end of the line.
pub fn show<T: Display + Drop>(rt: &impl Print, answer: Result<T, Refusal>) -> io::Result<()> {
    match answer {
        Ok(figure) => println!(rt; " {figure}"),
        Err(refusal) => println!(rt; " refused {refusal}"),
    }
}

pub fn show_figures(rt: &impl Print, f: Figures) -> io::Result<()> {
    let Figures {
        number,
        level,
        v0,
        v15,
        gross,
        net,
    } = f;
    print!(rt; " {number} {level} {v0} {v15} {gross} {net}")
}

// A car's six figures, or the refusal's number, to the end of the line.
pub fn show_car(rt: &impl Print, answer: Result<Figures, Refusal>) -> io::Result<()> {
    match answer {
        Ok(figures) => {
            show_figures(rt, figures)?;
            println!(rt; "")
        }
        Err(refusal) => println!(rt; " refused {refusal}"),
    }
}

// Levels or capacities of up to four rows, in the places of four tables; row 0 is 0.
pub fn places_of(four: [u32; 4]) -> [u32; PLACES] {
    let mut places = [0u32; PLACES];
    places[..4].copy_from_slice(&four);
    places[0] = 0;
    places
}

// One table of a type and of so many rows.
pub fn one_table<'a>(
    kind: u32,
    rows: u32,
    levels: &'a [u32; PLACES],
    capacities: &'a [u32; PLACES],
) -> Tables<'a> {
    Tables {
        count: 1,
        types: [kind, 0, 0, 0],
        rows: [rows, 0, 0, 0],
        levels,
        capacities,
    }
}
