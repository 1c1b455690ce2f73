// One step in reading a sheet: what a line of each letter brings, by the refusals 7, 8 and 9.
#![tactic(auto)]

ghost use Rattle.std.specs.Prelude.{◌≡◌, List, ℕ, ◌<◌, get_or};
ghost use Rattle.table.specs.Table.{row_of};
ghost use Rattle.grammar.specs.Sheet.{table_line, row_line, car_line, strike_line, end_line, step_of};
ghost use Rattle.holding.specs.Inner.{state_in, step_in, Owing, Bounds};

use base::{MOST_CAR_LINES, MOST_ROWS, MOST_STRIKES, Refusal};
use holding::{
    CAR_MARK, HISTORY_NUMBERS, LINE_PLACES, LineRefusal, Reader, STRIKE_MARK, Stepped, due_of,
    refused_here, store_line, store_row,
};
use reading::{Letter, MOST_FIELDS};
use scanning::{CAR_BYTES, END_BYTES, ROW_BYTES, STRIKE_BYTES, TABLE_BYTES};

// A T line: 7, or one more table.
fn table_line(reader: Reader, kind: u32, rows: u32) -> Stepped
    requires { Bounds reader }
    ensures { (l c f : List ℕ) → step_in result l c f ≡ table_line (state_in reader l c f) kind rows }
{
    let mut directory = reader.directory;
    let k = directory.count as usize;
    if rowtests::table_line_bad(directory.types, k, kind, rows) {
        return refused_here(reader, Refusal::TableLine);
    }
    directory.types[k] = kind;
    directory.rows[k] = 0;
    directory.count += 1;
    Stepped {
        end: None,
        reader: Reader {
            at: reader.at + TABLE_BYTES,
            line: reader.line + 1,
            owed: rows,
            directory,
            ..reader
        },
    }
}

// An R line, where a row is owed: 8, or one more row.
fn row_line(
    reader: Reader,
    levels: &mut [u32; table::PLACES],
    capacities: &mut [u32; table::PLACES],
    level: u32,
    capacity: u32,
) -> Stepped
    requires { Bounds reader × (0 < reader.owed) × Owing reader.owed reader.directory }
    ensures { (f : List ℕ) → step_in result levels.new capacities.new f ≡ row_line (state_in reader levels.old capacities.old f) (row_of level capacity) }
{
    let mut directory = reader.directory;
    let k = directory.count as usize - 1;
    let rows = directory.rows[k];
    let at = MOST_ROWS * k;
    if rowtests::row_bad(levels, capacities, at, rows as usize, level, capacity) {
        return refused_here(reader, Refusal::RowLine);
    }
    store_row(levels, capacities, at + rows as usize, level, capacity);
    directory.rows[k] = rows + 1;
    Stepped {
        end: None,
        reader: Reader {
            at: reader.at + ROW_BYTES,
            line: reader.line + 1,
            owed: reader.owed - 1,
            directory,
            ..reader
        },
    }
}

// A C line: 9 for the hundred and twenty-first, or one more car.
fn car_line(
    reader: Reader,
    fields: &mut [u32; HISTORY_NUMBERS],
    numbers: [u32; MOST_FIELDS],
) -> Stepped
    requires { Bounds reader }
    ensures { (l c : List ℕ) → step_in result l c fields.new ≡ car_line (state_in reader l c fields.old) numbers }
{
    if MOST_CAR_LINES <= reader.cars {
        return refused_here(reader, Refusal::Count);
    }
    let at = LINE_PLACES * (reader.cars + reader.struck);
    store_line(fields, at, CAR_MARK, numbers);
    Stepped {
        end: None,
        reader: Reader {
            at: reader.at + CAR_BYTES,
            line: reader.line + 1,
            cars: reader.cars + 1,
            ..reader
        },
    }
}

// A K line: 9 for the sixty-first, or one more strike, of the first of its numbers.
fn strike_line(
    reader: Reader,
    fields: &mut [u32; HISTORY_NUMBERS],
    numbers: [u32; MOST_FIELDS],
) -> Stepped
    requires { Bounds reader }
    ensures { (l c : List ℕ) → step_in result l c fields.new ≡ strike_line (state_in reader l c fields.old) (get_or numbers 0 0) }
{
    if MOST_STRIKES <= reader.struck {
        return refused_here(reader, Refusal::Count);
    }
    let at = LINE_PLACES * (reader.cars + reader.struck);
    store_line(fields, at, STRIKE_MARK, numbers);
    Stepped {
        end: None,
        reader: Reader {
            at: reader.at + STRIKE_BYTES,
            line: reader.line + 1,
            struck: reader.struck + 1,
            ..reader
        },
    }
}

// The E line of a sheet of so many bytes: 9, or the sheet is whole.
fn end_line(bytes: usize, reader: Reader, count: u32) -> Stepped
    requires { Bounds reader }
    ensures { (l c f : List ℕ) → step_in result l c f ≡ end_line bytes (state_in reader l c f) count }
{
    if count as usize != reader.cars {
        return refused_here(reader, Refusal::Count);
    }
    let end = if reader.at + END_BYTES == bytes {
        Ok(())
    } else {
        Err(LineRefusal {
            line: reader.line + 1,
            refusal: Refusal::Count,
        })
    };
    Stepped {
        end: Some(end),
        reader,
    }
}

// The line due, whatever it is.
pub fn read_step(
    s: &[u8],
    reader: Reader,
    levels: &mut [u32; table::PLACES],
    capacities: &mut [u32; table::PLACES],
    fields: &mut [u32; HISTORY_NUMBERS],
) -> Stepped
    requires { Bounds reader }
    ensures { step_in result levels.new capacities.new fields.new ≡ step_of s.now (state_in reader levels.old capacities.old fields.old) }
{
    let due = due_of(
        reader.owed,
        reader.directory.count,
        reader.cars + reader.struck,
    );
    match scanning::read_line_at(s, reader.at, due) {
        Ok(line) => {
            let numbers = line.numbers;
            match line.letter {
                Letter::Table => table_line(reader, numbers[0], numbers[1]),
                Letter::Row => row_line(reader, levels, capacities, numbers[0], numbers[1]),
                Letter::Car => car_line(reader, fields, numbers),
                Letter::Strike => strike_line(reader, fields, numbers),
                Letter::End => end_line(s.len(), reader, numbers[0]),
                // a letter of an answer alone
                _ => refused_here(reader, Refusal::WrongLetter),
            }
        }
        Err(refusal) => refused_here(reader, refusal),
    }
}
