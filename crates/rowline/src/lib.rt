// An R line that is as it should be, taken at its place with no search; most of a sheet's lines are such.
#![tactic(auto)]

ghost use Rattle.std.specs.Prelude.{◌≡◌};
ghost use Rattle.reading.specs.Reading.{row_at};

use field::COLUMNS;
use scanning::ROW_BYTES;

// Where the capacity and the line feed of an R line stand, behind its start.
const ROW_CAPACITY: usize = 1 + COLUMNS;

const ROW_FEED: usize = ROW_BYTES - 1;

// The level and the capacity of the R line that starts at `at`, where there is one as it should be.
pub fn row_at(s: &[u8], at: usize) -> Option<(u32, u32)>
    ensures { result ≡ row_at s.now at }
{
    if s.len() <= at || s.len() - at <= ROW_FEED || s[at] != b'R' || s[at + ROW_FEED] != b'\n' {
        return None;
    }
    let level = quick::short_field(s, at + 1)?;
    let capacity = quick::long_field(s, at + ROW_CAPACITY)?;
    Some((level, capacity))
}
