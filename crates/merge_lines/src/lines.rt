// Lines of a sheet made of their numbers: C and E.
ghost use Rattle.std.specs.Prelude.{◌≡◌, ◌+◌, ◌<◌};
ghost use Rattle.base.specs.Limits.{most_car_lines, most_strikes};
ghost use Rattle.grammar.specs.Grammar.{c_line, e_line};
ghost use Rattle.merge_order.specs.Inner.{car_in};

use holding::{HISTORY_NUMBERS, LINE_PLACES};
use reading::{Letter, Line, MOST_FIELDS};

// Line i behind a sheet's tables, a C line, whose fourteen numbers stand behind its letter.
pub fn car_line(fields: &[u32; HISTORY_NUMBERS], i: usize) -> Line
    requires { i < most_car_lines + most_strikes }
    ensures { result ≡ c_line (car_in fields.now i) }
{
    let start = LINE_PLACES * i + 1;
    let mut numbers = [0u32; MOST_FIELDS];
    numbers.copy_from_slice(&fields[start..start + MOST_FIELDS]);
    Line {
        letter: Letter::Car,
        numbers,
    }
}

// The E line of so many cars.
pub fn end_line(cars: u32) -> Line
    ensures { result ≡ e_line cars }
{
    let mut numbers = [0u32; MOST_FIELDS];
    numbers[0] = cars;
    Line {
        letter: Letter::End,
        numbers,
    }
}
