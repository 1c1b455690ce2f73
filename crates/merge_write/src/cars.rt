// The C lines of a sheet made of two, in the order of their entries.
ghost use Rattle.std.specs.Prelude.{◌≡◌, ◌<◌, length};
ghost use Rattle.grammar.specs.Grammar.{c_line};
ghost use Rattle.merge_order.specs.Inner.{span};
ghost use Rattle.merge_lines.specs.Inner.{Appended};
ghost use Rattle.merge_write.specs.Inner.{car_place, Stands, car_lines, CarsReady};

use merge_lines::{ReadSheet, car_line};
use merge_order::{HALF_SPAN, SPAN};
use printing::append_line;
use reading::Line;

// The C line of the car at a place: the first sheet's below 256, the second's from 256 on.
fn line_by(first: &ReadSheet<'_>, second: &ReadSheet<'_>, p: u64) -> Line
    requires { (p < span) × Stands p }
    ensures { result ≡ c_line (car_place first.now second.now p) }
{
    if p < HALF_SPAN {
        return car_line(first.fields, p as usize);
    }
    car_line(second.fields, (p - HALF_SPAN) as usize)
}

// Writes the C lines of the entries from `at` on, and answers the place behind them.
pub fn write_cars(
    out: &mut [u8],
    at: usize,
    order: &[u64],
    first: &ReadSheet<'_>,
    second: &ReadSheet<'_>,
) -> usize
    requires { CarsReady first.now second.now order.now at (length out.old) }
    ensures { Appended (car_lines first.now second.now order.now) at out.old result out.new }
{
    let mut place = at;
    for &entry in order {
        place = append_line(out, place, line_by(first, second, entry % SPAN));
    }
    place
}
