// Lines of a sheet and of an answer: read one line alone, write one line.
#![tactic(auto)]

ghost use Rattle.std.specs.Prelude.{◌≡◌};
ghost use Rattle.reading.specs.Reading.{any};
ghost use Rattle.reading.specs.Tests.{line_answer, line_told};
ghost use Rattle.line.specs.Alone.{read_line, EndsAtFeed};
ghost use Rattle.line.specs.RoundTrip.{ReadWritesBack};

use base::Refusal;
use reading::{Due, Line};

mod writing; // writing.rt: a line is written, or turned away by 22

pub use writing::{write_line, write_line_at};

// One line alone, of any of the sheet's letters. It ends at its first line feed.
pub fn read_line(s: &[u8]) -> Result<Line, Refusal>
    ensures { (result ≡ read_line s.now) × (line_told result ≡ line_answer s.now 0 any) × EndsAtFeed s.now result × ReadWritesBack s.now result }
{
    scanning::read_line_at(
        s,
        0,
        Due {
            table: true,
            row: true,
            car: true,
            strike: true,
            end: true,
        },
    )
}
