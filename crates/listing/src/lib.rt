// A sheet answered: the listing of its cars, or the line that says why it is turned away.
#![tactic(auto)]

ghost use Rattle.std.specs.Prelude.{◌≡◌, ◌+◌, ◌≤◌, ◌<◌, length};
ghost use Rattle.base.specs.Buffer.{put};
ghost use Rattle.base.specs.Limits.{most_car_lines, most_strikes};
ghost use Rattle.reading.specs.Letter.{most_fields};
ghost use Rattle.table.specs.Layout.{tables_in};
ghost use Rattle.table.specs.Inner.{GoodTables};
ghost use Rattle.consist.specs.Train.{empty_train};
ghost use Rattle.consist.specs.Demand3.{answer_to, train_with};
ghost use Rattle.consist.specs.Inner.{SoundTrain};
ghost use Rattle.consist.specs.Lent.{train_in};
ghost use Rattle.grammar.specs.Text.{text_of};
ghost use Rattle.grammar.specs.Sheet.{sheet_of};
ghost use Rattle.grammar.specs.ByGrammar.{ReadByGrammar};
ghost use Rattle.holding.specs.Layout.{line_numbers, history_of};
ghost use Rattle.answers.specs.Listing.{items_of, item_line, lines_from, least_buffer, reply_told, reply_of, after_answer};
ghost use Rattle.answers.specs.Reconciled.{SheetReconciled};
ghost use Rattle.answers.specs.Paper.{PaperExample};
ghost use Rattle.listing.specs.Inner.{item_at, Ready};

use answers::Reply;
use base::{GRADES, MOST_CAR_LINES, MOST_STRIKES, Refusal};
use consist::HeldCars;
use holding::{CAR_MARK, HISTORY_NUMBERS, LINE_PLACES};
use reading::Line;
use table::{Directory, PLACES, Tables};
use thermal_stored::Expansions;
use train::Train;
use working::car_of;

// The longest answer, in bytes, and so the least buffer: a line for each of 120 C lines and sixty K lines, S, and G for each grade.
pub const LEAST_BUFFER: usize = MOST_CAR_LINES * scanning::CAR_ACCEPTED_BYTES
    + MOST_STRIKES * scanning::CAR_REFUSED_BYTES
    + scanning::TOTALS_BYTES
    + GRADES * scanning::GRADE_TOTALS_BYTES;

// The numbers of line i behind the tables, which stand from 15 i on, its letter first.
fn line_at(fields: &[u32; HISTORY_NUMBERS], i: usize) -> &[u32]
    requires { i < most_car_lines + most_strikes }
    ensures { result.now ≡ line_numbers fields.now i }
{
    &fields[LINE_PLACES * i..LINE_PLACES * i + LINE_PLACES]
}

// Line i behind the tables: its car is entered in the train, or its number struck. Answers its line of the listing.
fn list_line(
    cars: &mut HeldCars,
    tables: &Tables<'_>,
    expansions: &Expansions,
    fields: &[u32; HISTORY_NUMBERS],
    i: usize,
) -> Line
    requires { (i < most_car_lines + most_strikes) × SoundTrain (train_in cars.old) × GoodTables tables.now }
    ensures line { result ≡ item_line (item_at (tables_in tables.now) fields.now i) (answer_to (train_in cars.old) (item_at (tables_in tables.now) fields.now i)) }
    ensures train { train_in cars.new ≡ train_with (train_in cars.old) (item_at (tables_in tables.now) fields.now i) }
{
    let line = line_at(fields, i);
    if line[0] == CAR_MARK {
        let car = working::dipped(car_of(&line[1..]));
        let expansion = expansions.look_up(car.measured.density);
        let answer = entering::enter_on(cars, tables, car, expansion);
        return printing::answer_line(car.number, answer);
    }
    let number = line[1];
    let answer = train_strike::strike_on(cars, number);
    printing::struck_line(number, answer)
}

// Writes the listing: a line for each line behind the tables, one after another, then the totals, which the cars that are held at the end
// make. Answers its length.
fn write_listing(
    out: &mut [u8],
    tables: &Tables<'_>,
    expansions: &Expansions,
    fields: &[u32; HISTORY_NUMBERS],
    lines: usize,
) -> usize
    requires { Ready tables.now fields.now lines (length out.old) }
    ensures { (result ≡ length (text_of (lines_from empty_train (items_of (tables_in tables.now) (history_of fields.now lines)))))
        × (out.new ≡ put out.old 0 (text_of (lines_from empty_train (items_of (tables_in tables.now) (history_of fields.now lines))))) }
{
    let mut cars = Train::empty().cars;
    let mut at: usize = 0;
    for i in 0..lines {
        let line = list_line(&mut cars, tables, expansions, fields, i);
        at = printing::append_line(out, at, line);
    }
    let sums = train_audit::made_by(&cars);
    printing::write_totals(out, at, sums)
}

// Answers a sheet into a lent buffer: the listing of its cars, or its Z line; 1 where the buffer has fewer than 8,101 bytes, and
// nothing is written. Bytes past the length handed back stay as lent.
pub fn answer_sheet(text: &[u8], out: &mut [u8]) -> Reply
    ensures { (reply_told result ≡ reply_of text.now (length out.old))
        × (out.new ≡ after_answer text.now out.old)
        × (result.length ≤ least_buffer) × SheetReconciled (sheet_of text.now) × PaperExample × ReadByGrammar text.now }
{
    if out.len() < LEAST_BUFFER {
        return Reply {
            length: 0,
            refusal: Some(Refusal::ShortBuffer),
        };
    }
    let mut levels = [0u32; PLACES];
    let mut capacities = [0u32; PLACES];
    let mut fields = [0u32; HISTORY_NUMBERS];
    let head = sheet::read_sheet(text, &mut levels, &mut capacities, &mut fields);
    if let Err(why) = head.outcome {
        let length = printing::write_refused(out, why.line, why.refusal.number());
        return Reply {
            length,
            refusal: Some(why.refusal),
        };
    }
    let Directory { count, types, rows } = head.directory;
    let tables = Tables {
        count,
        types,
        rows,
        levels: &levels,
        capacities: &capacities,
    };
    let expansions = Expansions::new();
    let length = write_listing(out, &tables, &expansions, &fields, head.cars + head.struck);
    Reply {
        length,
        refusal: None,
    }
}
