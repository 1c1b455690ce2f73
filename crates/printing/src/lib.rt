// The lines of an answer, made and written one after another into a lent buffer.
#![tactic(auto)]

ghost use Rattle.std.specs.Prelude.{◌≡◌, true, [], ◌∷◌, ◌++◌, ◌+◌, ◌-◌, ◌≤◌, length, replicate};
ghost use Rattle.base.specs.Buffer.{put};
ghost use Rattle.base.specs.Limits.{largest};
ghost use Rattle.base.specs.Refusal.{figure_told};
ghost use Rattle.reading.specs.Letter.{width_of, most_fields};
ghost use Rattle.line.specs.Writing.{line_of, writable};
ghost use Rattle.car.specs.Car.{car_told};
ghost use Rattle.summing.specs.Inner.{Low};
ghost use Rattle.grammar.specs.Text.{text_of};
ghost use Rattle.answers.specs.Listing.{answer_line, struck_line, totals_line, grade_line, totals_lines, sheet_refused_line, least_buffer};
ghost use Rattle.printing.specs.Inner.{Closing};

use base::{GRADES, Refusal};
use car::Figures;
use reading::{Letter, Line, MOST_FIELDS};
use summing::{Sums, Totals};

// The line of this letter with these numbers in its first places, and 0 in the others.
fn line_with(letter: Letter, first: &[u32]) -> Line
    requires { length first.now ≤ most_fields }
    ensures { result ≡ record { letter = letter; numbers = first.now ++ replicate (most_fields - length first.now) 0 } }
{
    let mut numbers = [0u32; MOST_FIELDS];
    numbers[..first.len()].copy_from_slice(first);
    Line { letter, numbers }
}

// The A or X line of the car of this number.
pub fn answer_line(number: u32, answer: Result<Figures, Refusal>) -> Line
    ensures { result ≡ answer_line number (car_told answer) }
{
    match answer {
        Ok(f) => line_with(
            Letter::CarAccepted,
            &[f.number, f.level, f.v0, f.v15, f.gross, f.net],
        ),
        Err(refusal) => line_with(Letter::CarRefused, &[number, refusal.number()]),
    }
}

// The K or X line of a strike of the number that was typed.
pub fn struck_line(typed: u32, answer: Result<u32, Refusal>) -> Line
    ensures { result ≡ struck_line typed (figure_told answer) }
{
    match answer {
        Ok(number) => line_with(Letter::Strike, &[number]),
        Err(refusal) => line_with(Letter::CarRefused, &[typed, refusal.number()]),
    }
}

// The S line.
fn totals_line(t: Totals) -> Line
    requires { Low t }
    ensures { result ≡ totals_line t }
{
    line_with(Letter::Totals, &[t.accepted, t.gross as u32, t.net as u32])
}

// The G line of a grade.
fn grade_line(grade: u32, t: Totals) -> Line
    requires { Low t }
    ensures { result ≡ grade_line grade t }
{
    line_with(
        Letter::GradeTotals,
        &[grade, t.accepted, t.gross as u32, t.net as u32],
    )
}

// Writes a line that has room from `at` on, and answers the place behind it.
pub fn append_line(out: &mut [u8], at: usize, text: Line) -> usize
    requires { writable text at (length out.old) ≡ true }
    ensures { (result ≡ at + width_of text.letter) × (out.new ≡ put out.old at (line_of text)) }
{
    match lettering::write_line_at(out, at, text) {
        Ok(width) => at + width,
        Err(_) => at,
    }
}

// Writes S and the G lines, grades rising, from `at` on, and answers the place behind them.
pub fn write_totals(out: &mut [u8], at: usize, sums: Sums) -> usize
    requires { Closing sums at (length out.old) }
    ensures { (result ≡ at + length (text_of (totals_lines sums)))
        × (out.new ≡ put out.old at (text_of (totals_lines sums))) }
{
    let mut place = append_line(out, at, totals_line(sums.all));
    for i in 0..GRADES {
        place = append_line(out, place, grade_line(i as u32 + 1, sums.grades[i]));
    }
    place
}

// Writes the Z line: the line number and the refusal's.
pub fn write_refused(out: &mut [u8], line: u32, number: u32) -> usize
    requires { (least_buffer ≤ length out.old) × (line ≤ largest) × (number ≤ largest) }
    ensures { (result ≡ length (text_of (sheet_refused_line line number ∷ []))) × (out.new ≡ put out.old 0 (text_of (sheet_refused_line line number ∷ []))) }
{
    let text = line_with(Letter::SheetRefused, &[line, number]);
    append_line(out, 0, text)
}
