// A sheet that was read whole.
ghost use Rattle.std.specs.Prelude.{◌≡◌};
ghost use Rattle.table.specs.Layout.{tables_in};
ghost use Rattle.grammar.specs.Sheet.{sheet_of, whole};
ghost use Rattle.holding.specs.Layout.{history_of};

use holding::HISTORY_NUMBERS;
use table::Tables;

// A sheet that was read whole: its bytes, the tables that they hold, and the lines behind these, of which there are so many; line i
// has the numbers from 15 i on.
#[derive(Clone, Copy)]
pub struct ReadSheet<'a> {
    pub text: &'a [u8],
    pub tables: Tables<'a>,
    pub fields: &'a [u32; HISTORY_NUMBERS],
    pub lines: usize,
    ghost read: { sheet_of text.now ≡ whole (tables_in tables) (history_of fields.now lines) },
}
