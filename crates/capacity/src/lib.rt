// The capacity at a level, read off capacity tables, and V0: step 2 of document 01, with refusals 12, 16 and 17. Rows and water levels
// are in mm, every other level is in tenths of a mm.
#![tactic(auto)]

ghost use Rattle.std.specs.Prelude.{◌≡◌};
ghost use Rattle.base.specs.Refusal.{figure_told};
ghost use Rattle.table.specs.Layout.{tables_in};
ghost use Rattle.table.specs.Inner.{GoodTables};
ghost use Rattle.gauging.specs.Capacity.{capacity_answer, volume_on, volume_answer};
ghost use Rattle.gauging.specs.Inner.{RowsFound};

use base::{MOST_ROWS, Refusal};
use gauging::Neighbours;
use interpolating::{in_tenths, interpolate, least_mm, neighbours, skip_rows};
use table::Tables;

// The rows around a level on the table of a type. Refused with 12 where no table has the type, with 16 where no row reaches the
// level.
pub fn rows_around(tables: &Tables<'_>, kind: u32, level: u64) -> Result<Neighbours, Refusal>
    requires { GoodTables tables.now }
    ensures { RowsFound (tables_in tables.now) kind level result }
{
    let reach = least_mm(level);
    let types = tables.types;
    let rows = tables.rows;
    let mut found = Err(Refusal::UnknownType);
    'tables: for k in 0..tables.count as usize {
        if types[k] == kind {
            let start = MOST_ROWS * k;
            let last = start + rows[k] as usize - 1;
            for low in skip_rows(tables.levels, start, last, reach)..last {
                if reach <= u64::from(tables.levels[low + 1]) {
                    found = Ok(neighbours(tables, low));
                    break 'tables;
                }
            }
            found = Err(Refusal::Level);
            break 'tables;
        }
    }
    found
}

// R of 100 times the capacity at a level, in 0.01 dm³, on the table of a type, or 12 or 16.
fn capacity_at(tables: &Tables<'_>, kind: u32, level: u64) -> Result<u32, Refusal>
    requires { GoodTables tables.now }
    ensures { figure_told result ≡ capacity_answer (tables_in tables.now) kind level }
{
    let rows = rows_around(tables, kind, level)?;
    Ok(interpolate(rows, level))
}

// V0, in 0.01 dm³, of oil between the water level (mm) and the mean level (tenths of a mm), on the table of a type; or the refusal: 12,
// 16 or 17.
pub fn volume_on(tables: &Tables<'_>, kind: u32, mean: u64, water: u32) -> Result<u32, Refusal>
    requires { GoodTables tables.now }
    ensures { figure_told result ≡ volume_on (tables_in tables.now) kind mean water }
{
    let full = capacity_at(tables, kind, mean)?;
    if mean == 0 {
        return Err(Refusal::Level);
    }
    let bottom = in_tenths(water);
    if mean <= bottom {
        return Err(Refusal::WaterLevel);
    }
    let under = capacity_at(tables, kind, bottom)?;
    Ok(full - under)
}

// V0 on tables that may be any: 7 and 8 come before the other refusals.
pub fn checked_volume(tables: &Tables<'_>, kind: u32, mean: u64, water: u32) -> Result<u32, Refusal>
    ensures { figure_told result ≡ volume_answer (tables_in tables.now) kind mean water }
{
    tabletests::check_tables(tables)?;
    volume_on(tables, kind, mean, water)
}
