//! Rows: a state of some of the variables, and the marks that it takes.

ghost use Rattle.std.specs.Prelude.{◌≡◌};
ghost use Rattle.mcs_base.specs.Partials.{Fits};
ghost use Rattle.mcs_table.specs.Tables.{united_row, restricted_row};

use mcs_base::{Marks, Partial, Vars};
use std::cmp::Ordering;

/// A state of some of the variables, and the marks that it takes.
#[derive(Clone, Copy, Debug, PartialEq, Eq)]
pub struct Row {
    pub state: Partial,
    pub marks: Marks,
}

impl Row {
    /// What one of the two rows says, with the marks of both. Their states fit.
    pub fn union(&self, other: &Row) -> Row
        requires { Fits self.now.state other.now.state }
        ensures { result ≡ united_row self.now other.now }
    {
        Row {
            state: self.state.union(&other.state),
            marks: self.marks.union(other.marks),
        }
    }

    /// What the row says of the variables of a set, with all its marks.
    pub fn restrict(&self, keep: Vars) -> Row
        ensures { result ≡ restricted_row self.now keep }
    {
        Row {
            state: self.state.restrict(keep),
            marks: self.marks,
        }
    }
}

/// Rows come in the order of states, those of one state in the order of pairs, so that std's sort
/// lists the rows of a table in order.
impl PartialOrd for Row {
    ghost use Rattle.std.specs.Ordering.{as_partial_cmp};
    ghost use Rattle.mcs_table.specs.RowOrder.{row_cmp, row_po};

    ghost partial_cmp = { as_partial_cmp row_cmp };

    ghost laws = { row_po };

    fn partial_cmp(&self, other: &Row) -> Option<Ordering> {
        Some(self.cmp(other))
    }
}

impl Ord for Row {
    ghost use Rattle.std.specs.Prelude.{refl};
    ghost use Rattle.mcs_table.specs.RowOrder.{row_cmp, row_cmp_total, row_tie};

    ghost cmp = { row_cmp };

    ghost total = { row_cmp_total };

    ghost matches_partial_cmp = { λ x y. refl };

    ghost matches_eq = { row_tie };

    fn cmp(&self, other: &Row) -> Ordering {
        let states = self.state.values().cmp(&other.state.values());
        let rows = states.then_with(|| self.marks.cmp(&other.marks));
        rows.then_with(|| self.state.mask().cmp(&other.state.mask()))
    }
}
