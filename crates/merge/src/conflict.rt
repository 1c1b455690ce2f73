// 33 and 34 of two sheets that were read.
ghost use Rattle.std.specs.Prelude.{◌≡◌};
ghost use Rattle.base.specs.Answer.{first};
ghost use Rattle.base.specs.Refusal.{verdict_told};
ghost use Rattle.table.specs.Layout.{tables_in};
ghost use Rattle.merge_spec.specs.Inner.{conflict_tests};
ghost use Rattle.merge_held.specs.Inner.{cars_at};
ghost use Rattle.merge.specs.Inner.{HeldAt};

use base::Refusal;
use merge_conflicts::{held_on_both, rows_differ, type_elsewhere};
use merge_held::Held;
use merge_lines::ReadSheet;

// 33 or 34 of two sheets and the cars that they hold.
#[tactic(auto, using(merge_lines::proofs::Known::its_tables))]
pub fn check_conflict(
    ours: &ReadSheet<'_>,
    a: &Held,
    theirs: &ReadSheet<'_>,
    b: &Held,
) -> Result<(), Refusal>
    requires { HeldAt ours.now a.now × HeldAt theirs.now b.now }
    ensures { verdict_told result ≡ first (conflict_tests (tables_in ours.now.tables) (cars_at ours.now a.now) (tables_in theirs.now.tables) (cars_at theirs.now b.now)) }
{
    let ours_at = &a.places[..a.count];
    let theirs_at = &b.places[..b.count];
    if rows_differ(&ours.tables, &theirs.tables)
        || type_elsewhere(&ours.tables, &theirs.tables, ours.fields, ours_at)
        || type_elsewhere(&theirs.tables, &ours.tables, theirs.fields, theirs_at)
    {
        return Err(Refusal::TypesClash);
    }
    if held_on_both(&a.numbers, a.count, &b.numbers, b.count) {
        return Err(Refusal::HeldTwice);
    }
    Ok(())
}
