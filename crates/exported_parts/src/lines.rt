// One line read alone, and one line written.
ghost use Rattle.std.specs.Prelude.{◌≡◌, cond, length};
ghost use Rattle.reading.specs.Letter.{most_fields};
ghost use Rattle.reading.specs.Reading.{any};
ghost use Rattle.reading.specs.Tests.{line_answer};
ghost use Rattle.line.specs.Alone.{read_line};
ghost use Rattle.marshalling.specs.Handed.{length_is, sized, figure_left, Handed};
ghost use Rattle.exported_parts.specs.Lines.{letter_named, numbers_left, write_answer_by, after_write_by};

use marshalling::BAD_LENGTH;
use reading::{Letter, Line, MOST_FIELDS};

// A byte is no letter of a sheet or of an answer.
const BAD_LETTER: u32 = 1_001;

// A line read alone: the byte of its letter and its numbers, 0 in the places that the letter does not use.
#[unsafe(no_mangle)]
pub extern "C" fn rack_read_line(text: &[u8], letter: &mut u8, numbers: &mut [u32]) -> u32
    ensures { Handed figure_left (sized (length_is most_fields numbers.old) (line_answer text.now 0 any)) result letter.old letter.new
        × (numbers.new ≡ cond (length_is most_fields numbers.old) (numbers_left (read_line text.now) numbers.old) numbers.old) }
{
    if numbers.len() != MOST_FIELDS {
        return BAD_LENGTH;
    }
    match lettering::read_line(text) {
        Ok(line) => {
            *letter = scanning::byte_of(line.letter);
            numbers.copy_from_slice(&line.numbers);
            0
        }
        Err(refusal) => refusal.number(),
    }
}

// The letter whose byte is b, of a sheet or of an answer.
#[tactic(auto, using(base::proofs::Tests::tests), unfolding(crate::specs::Lines::letter_named))]
fn letter_named(b: u8) -> Option<Letter>
    ensures { result ≡ letter_named b }
{
    match b {
        b'T' => Some(Letter::Table),
        b'R' => Some(Letter::Row),
        b'C' => Some(Letter::Car),
        b'K' => Some(Letter::Strike),
        b'E' => Some(Letter::End),
        b'A' => Some(Letter::CarAccepted),
        b'X' => Some(Letter::CarRefused),
        b'S' => Some(Letter::Totals),
        b'G' => Some(Letter::GradeTotals),
        b'Z' => Some(Letter::SheetRefused),
        _ => None,
    }
}

// A line written from the buffer's start: its length in bytes. Places that the letter does not use are not looked at.
#[unsafe(no_mangle)]
pub extern "C" fn rack_write_line(
    letter: u8,
    numbers: &[u32],
    out: &mut [u8],
    written: &mut usize,
) -> u32
    ensures { Handed figure_left (sized (length_is most_fields numbers.now) (write_answer_by (letter_named letter) numbers.now (length out.old))) result written.old written.new
        × (out.new ≡ cond (length_is most_fields numbers.now) (after_write_by (letter_named letter) numbers.now out.old) out.old) }
{
    let Ok(numbers) = <[u32; MOST_FIELDS]>::try_from(numbers) else {
        return BAD_LENGTH;
    };
    let Some(letter) = letter_named(letter) else {
        return BAD_LETTER;
    };
    let line = Line { letter, numbers };
    marshalling::hand_over_figure(lettering::write_line(out, line), written)
}
