// A line is written, or turned away by 22.
ghost use Rattle.std.specs.Prelude.{◌≡◌, true, ◌+◌, ◌≤◌, ◌↔◌, IsTrue, EachIndex, get_or, length};
ghost use Rattle.base.specs.Buffer.{put};
ghost use Rattle.base.specs.Limits.{largest};
ghost use Rattle.base.specs.Refusal.{figure_told};
ghost use Rattle.reading.specs.Letter.{count_of, width_of};
ghost use Rattle.line.specs.Writing.{small_to, line_of, write_answer, after_write};
ghost use Rattle.line.specs.RoundTrip.{WrittenReadsBack};

use base::{LARGEST, Refusal};
use field::COLUMNS;
use reading::Line;
use scanning::{byte_of, count_of};

// No number exceeds 99,999,999.
fn small(numbers: &[u32]) -> bool
    ensures { IsTrue result ↔ EachIndex numbers.now (λ k. get_or numbers.now k 0 ≤ largest) }
{
    numbers.iter().all(|&n| n <= LARGEST)
}

// Writes a line from `at` on, where it has room and its numbers are small.
fn put_line(out: &mut [u8], at: usize, line: Line)
    requires { (at + width_of line.letter ≤ length out.old) × (small_to line.numbers (count_of line.letter) ≡ true) }
    ensures { out.new ≡ put out.old at (line_of line) }
{
    let count = count_of(line.letter);
    out[at] = byte_of(line.letter);
    for j in 0..count {
        field::write_field(out, at + 1 + COLUMNS * j, line.numbers[j]);
    }
    out[at + 1 + COLUMNS * count] = b'\n';
}

// Writes a line from `at` on: its length, or 22 with nothing written where a number exceeds 99,999,999 or
// there is no room.
pub fn write_line_at(out: &mut [u8], at: usize, line: Line) -> Result<usize, Refusal>
    ensures { (figure_told result ≡ write_answer line at (length out.old)) × (out.new ≡ after_write line at out.old) }
{
    let count = count_of(line.letter);
    let width = 2 + COLUMNS * count;
    if out.len() < width || out.len() - width < at || !small(&line.numbers[..count]) {
        return Err(Refusal::NotWritable);
    }
    put_line(out, at, line);
    Ok(width)
}

// One line alone, from the buffer's start.
pub fn write_line(out: &mut [u8], line: Line) -> Result<usize, Refusal>
    ensures { (figure_told result ≡ write_answer line 0 (length out.old)) × (out.new ≡ after_write line 0 out.old) × WrittenReadsBack line out.old out.new }
{
    write_line_at(out, 0, line)
}
