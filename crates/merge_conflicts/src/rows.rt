// 33: a type has different rows on two sheets.
ghost use Rattle.std.specs.Prelude.{◌≡◌, ◌+◌, ◌*◌, ◌≤◌, ◌<◌, get_or};
ghost use Rattle.base.specs.Limits.{most_rows};
ghost use Rattle.table.specs.Layout.{places, rows_from, tables_in};
ghost use Rattle.table.specs.Inner.{GoodTables};
ghost use Rattle.merge_spec.specs.Merge.{same_rows, rows_differ};
ghost use Rattle.merge_conflicts.specs.Inner.{same_run, table_differs};

use base::MOST_ROWS;
use table::{PLACES, Tables};

// Whether n numbers of one array, from `at` on, are those of another from `at2` on.
fn same_run(xs: &[u32; PLACES], at: usize, ys: &[u32; PLACES], at2: usize, n: usize) -> bool
    requires { (at + n ≤ places) × (at2 + n ≤ places) }
    ensures { result ≡ same_run xs.now ys.now at at2 n }
{
    xs[at..at + n] == ys[at2..at2 + n]
}

// Whether n rows of one sheet, from `at` on, are those of another from `at2` on.
#[tactic(auto, using(crate::proofs::Comparing::same_by))]
fn same_rows(first: &Tables<'_>, at: usize, second: &Tables<'_>, at2: usize, n: usize) -> bool
    requires { (at + n ≤ places) × (at2 + n ≤ places) }
    ensures { result ≡ same_rows (rows_from first.now.levels.now first.now.capacities.now at n) (rows_from second.now.levels.now second.now.capacities.now at2 n) }
{
    same_run(first.levels, at, second.levels, at2, n)
        && same_run(first.capacities, at, second.capacities, at2, n)
}

// Whether the type of the first sheet's table k has other rows on the second.
#[tactic(auto, using(crate::proofs::Comparing::sought_next))]
fn table_differs(first: &Tables<'_>, k: usize, second: &Tables<'_>) -> bool
    requires { (k < first.now.count) × GoodTables first.now × GoodTables second.now }
    ensures { result ≡ table_differs (get_or first.now.types k 0) (rows_from first.now.levels.now first.now.capacities.now (most_rows * k) (get_or first.now.rows k 0)) (tables_in second.now) }
{
    let kind = first.types[k];
    let n = first.rows[k];
    for j in 0..second.count as usize {
        if second.types[j] == kind {
            return second.rows[j] != n
                || !same_rows(first, MOST_ROWS * k, second, MOST_ROWS * j, n as usize);
        }
    }
    false
}

// Whether a type has different rows on two sheets.
pub fn rows_differ(first: &Tables<'_>, second: &Tables<'_>) -> bool
    requires { GoodTables first.now × GoodTables second.now }
    ensures { result ≡ rows_differ (tables_in first.now) (tables_in second.now) }
{
    for k in 0..first.count as usize {
        if table_differs(first, k, second) {
            return true;
        }
    }
    false
}
