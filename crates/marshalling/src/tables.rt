// Capacity tables handed in as slices of numbers.
ghost use Rattle.std.specs.Prelude.{◌≡◌, length};
ghost use Rattle.base.specs.Limits.{most_tables};
ghost use Rattle.table.specs.Layout.{places, tables_in};
ghost use Rattle.marshalling.specs.Layout.{tables_lent, tables_sized};

use crate::slices;
use base::MOST_TABLES;
use table::{PLACES, Tables};

// Whether the slices of tables have the lengths that they must have.
#[tactic(auto, using(base::proofs::Tests::tests), unfolding(crate::specs::Layout::tables_sized))]
pub fn tables_fit(types: &[u32], rows: &[u32], levels: &[u32], capacities: &[u32]) -> bool
    ensures { result ≡ tables_sized types.now rows.now levels.now capacities.now }
{
    types.len() == MOST_TABLES
        && rows.len() == MOST_TABLES
        && levels.len() == PLACES
        && capacities.len() == PLACES
}

// So many tables, by their types, how many rows each has, and the places of levels and capacities, which are not copied.
pub fn tables_of<'a>(
    count: u32,
    types: &[u32],
    rows: &[u32],
    levels: &'a [u32],
    capacities: &'a [u32],
) -> Tables<'a>
    requires { (length types.now ≡ most_tables) × (length rows.now ≡ most_tables) × (length levels.now ≡ places) × (length capacities.now ≡ places) }
    ensures { tables_in result ≡ tables_lent count types.now rows.now levels.now capacities.now }
{
    let types = *slices::array_of(types);
    let rows = *slices::array_of(rows);
    Tables {
        count,
        types,
        rows,
        levels: slices::array_of(levels),
        capacities: slices::array_of(capacities),
    }
}
