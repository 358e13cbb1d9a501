//! In which order tables are joined.

ghost use Rattle.std.specs.Prelude.{◌≡◌, ◌<◌, length};
ghost use Rattle.std.specs.List.{AllByRecursion};
ghost use Rattle.std.specs.List.Sorted.{IsPermutation};
ghost use Rattle.mcs_table.specs.Joins.{union_of};
ghost use Rattle.mcs_table.specs.Tables.{TableData, IsTable};

use mcs_base::Vars;
use mcs_table::Table;

/// The variables of all of the tables.
pub fn scopes(tables: &[Table]) -> Vars
    ensures value { result ≡ union_of (λ (t : TableData). t.scope) tables.now }
    ensures kept { AllByRecursion IsTable tables.now }
{
    let mut all = Vars::empty();
    for table in tables {
        all = all.union(table.scope());
    }
    all
}

/// Whether the first table is to be joined before the second, after tables of these variables: it
/// shares variables with them and the second does not, or else it has fewer rows.
fn is_sooner(a: &Table, b: &Table, seen: Vars) -> bool {
    (!a.scope().meets(seen), a.rows().len()) < (!b.scope().meets(seen), b.rows().len())
}

/// Which of the tables, from this one on, is to be joined first, after tables of these variables.
fn soonest(tables: &[Table], from: usize, seen: Vars) -> usize
    requires { from < length tables.now }
    ensures { result < length tables.now }
{
    let mut best = from;
    for i in from + 1..tables.len() {
        if is_sooner(&tables[i], &tables[best], seen) {
            best = i;
        }
    }
    best
}

/// Moves a table up to an earlier place, so that those between keep their order.
fn move_up(tables: &mut [Table], to: usize, from: usize)
    requires { from < length tables.old }
    ensures { IsPermutation tables.old tables.new }
{
    for k in (to..from).rev() {
        tables.swap(k, k + 1);
    }
}

/// Puts the tables in the order in which they are joined: next comes always one that shares
/// variables with those before it, where there is one, of these one with the fewest rows, and of
/// these the first. So states that no table tells apart come of the joins in their order, as far as
/// the tables stand in theirs.
pub(crate) fn put_in_order(tables: &mut [Table])
    ensures { IsPermutation tables.old tables.new }
{
    let mut seen = Vars::empty();
    for k in 0..tables.len() {
        let next = soonest(tables, k, seen);
        move_up(tables, k, next);
        seen = seen.union(tables[k].scope());
    }
}
