// Rows and lines stored in the arrays that are lent.
ghost use Rattle.std.specs.Prelude.{◌≡◌, ◌∷◌, ◌+◌, ◌≤◌, ◌<◌, length};
ghost use Rattle.base.specs.Buffer.{put};
ghost use Rattle.table.specs.Layout.{places};
ghost use Rattle.holding.specs.Layout.{line_places, history_numbers};
ghost use Rattle.holding.specs.Inner.{Stored};

use crate::{HISTORY_NUMBERS, LINE_PLACES};
use reading::MOST_FIELDS;

// Stores a row.
pub fn store_row(
    levels: &mut [u32; table::PLACES],
    capacities: &mut [u32; table::PLACES],
    place: usize,
    level: u32,
    capacity: u32,
)
    requires { place < places }
    ensures { Stored levels.old capacities.old levels.new capacities.new place level capacity }
{
    levels[place] = level;
    capacities[place] = capacity;
}

// Stores a line from `at` on: what stands for its letter, then its numbers.
pub fn store_line(
    fields: &mut [u32; HISTORY_NUMBERS],
    at: usize,
    letter: u32,
    numbers: [u32; MOST_FIELDS],
)
    requires { at + line_places ≤ history_numbers }
    ensures { (fields.new ≡ put fields.old at (letter ∷ numbers)) × (length fields.old ≡ history_numbers) }
{
    fields[at] = letter;
    fields[at + 1..at + LINE_PLACES].copy_from_slice(&numbers);
}
