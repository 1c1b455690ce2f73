// Two sheets that were read become one, or are refused by 33, 34 or 35.
ghost use Rattle.std.specs.Prelude.{◌≡◌, ◌||◌, ◌≤◌, ltb, length};
ghost use Rattle.base.specs.Limits.{most_cars, most_tables};
ghost use Rattle.merge_spec.specs.Merge.{least_merge_buffer};
ghost use Rattle.merge_spec.specs.Reply.{reply_by};
ghost use Rattle.merge.specs.Inner.{merged_sheets, Gives};

use crate::{BOTH_CARS, BOTH_TABLES, conflict, order, write};
use base::{MOST_CARS, MOST_TABLES, Refusal};
use merge_held::held_cars;
use merge_lines::ReadSheet;

// 35: whether more than four types, or more than sixty cars, remain.
fn too_many(tables: usize, cars: usize) -> bool
    ensures { result ≡ (ltb most_tables tables || ltb most_cars cars) }
{
    MOST_TABLES < tables || MOST_CARS < cars
}

// Merges two sheets that were read, and writes the sheet made of them; or gives 33, 34 or 35, and nothing is written.
pub fn merge_read(
    out: &mut [u8],
    first: &ReadSheet<'_>,
    second: &ReadSheet<'_>,
) -> Result<usize, Refusal>
    requires { least_merge_buffer ≤ length out.old }
    ensures { Gives (merged_sheets first.now.text.now second.now.text.now) out.old (reply_by result) out.new }
{
    let a = held_cars(first);
    let b = held_cars(second);
    conflict::check_conflict(first, &a, second, &b)?;
    let mut torder = [0u64; BOTH_TABLES];
    let mut corder = [0u64; BOTH_CARS];
    let tables = order::order_tables(&mut torder, &first.tables, &second.tables);
    let cars = order::order_cars(&mut corder, &a, &b);
    if too_many(tables, cars) {
        return Err(Refusal::TooMany);
    }
    Ok(write::write_sheet(out, &torder[..tables], &corder[..cars], first, second))
}
