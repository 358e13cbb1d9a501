//! Tables: rows on the same variables, in order.

ghost use Rattle.std.specs.Prelude.{◌≡◌, IfOk};
ghost use Rattle.std.specs.List.{AllByRecursion};
ghost use Rattle.mcs_base.specs.Listings.{IsAmong, IsListing};
ghost use Rattle.mcs_base.specs.Partials.{IsPartial};
ghost use Rattle.mcs_table.specs.RowOrder.{RowBefore, row_cmp};
ghost use Rattle.mcs_table.specs.Tables.{IsTable, unit_table};
ghost use Rattle.std.specs.declared.cmp.Ordering.TheVariants.{Less};
ghost use Rattle.mcs_table.specs.declared.row.Row as declared;

use crate::row::Row;
use mcs_base::{Marks, Memory, Partial, Vars};
use std::alloc::Global;
use std::marker::Model;

/// Rows on the same variables, the scope. They come in the order of states, those of one state in
/// the order of pairs, and each is there once.
#[derive(Debug, Drop)]
pub struct Table {
    scope: Vars,
    rows: Vec<Row>,
}

impl Model for Table {
    ghost use Rattle.mcs_table.specs.Tables.{TableData, IsTable};

    ghost Value = { TableData };

    ghost view = { λ t. record { scope = t.scope; rows = t.rows.items } };

    ghost invariant = { λ t. IsTable (record { scope = t.scope; rows = t.rows.items }) };
}

impl Table {
    /// The table of no variables and its one row of no marks: joined with it, a table keeps its
    /// minimal rows.
    pub fn unit(alloc: Global) -> Result<Table, Memory>
        ensures { IfOk result (λ t. t ≡ unit_table) }
    {
        let row = Row {
            state: Partial::new(Vars::empty(), Vars::empty()),
            marks: Marks::empty(),
        };
        let mut rows = Vec::new(alloc);
        rows.push(row)?;
        Ok(Table {
            scope: Vars::empty(),
            rows,
        })
    }

    /// The table of these rows, each of which is on the variables of the scope. It takes no memory.
    pub fn new(scope: Vars, rows: Vec<Row>) -> Table
        requires { AllByRecursion (λ (r : declared.Row). r.state.mask ≡ scope) rows.items }
        ensures scope { result.scope ≡ scope }
        ensures rows { IsListing (λ r. IsAmong r rows.items) RowBefore result.rows }
        ensures kept { IsTable result }
    {
        let mut rows = rows;
        look_at(&rows);
        list_rows(&mut rows);
        Table { scope, rows }
    }

    /// The table of these rows, which are those of a table already: all on the variables of the
    /// scope, in order and each once, as what is kept of a table's rows is. It takes no memory.
    pub fn in_order(scope: Vars, rows: Vec<Row>) -> Table
        requires { IsTable (record { scope = scope; rows = rows.items }) }
        ensures { result ≡ record { scope = scope; rows = rows.items } }
    {
        Table { scope, rows }
    }

    /// The rows of a table that is not needed any more.
    pub fn into_rows(self) -> Vec<Row>
        ensures value { result.items ≡ self.rows }
        ensures kept { IsTable self }
    {
        self.rows
    }

    /// The variables of the table.
    pub fn scope(&self) -> Vars
        ensures value { result ≡ self.now.scope }
        ensures kept { IsTable self.now }
    {
        self.scope
    }

    /// The rows, in order.
    pub fn rows(&self) -> &[Row]
        ensures value { result.now ≡ self.now.rows }
        ensures kept { IsTable self.now }
    {
        &self.rows
    }
}

/// Looks at each row, so that it is known that its values are of its mask.
fn look_at(rows: &[Row])
    ensures { AllByRecursion (λ (r : declared.Row). IsPartial r.state) rows.now }
{
    for row in rows {
        let _values = row.state.values();
    }
}

/// Makes of the rows their listing, by the order of rows. It takes no memory.
fn list_rows(rows: &mut Vec<Row>)
    ensures { IsListing (λ r. IsAmong r rows.old.items) (λ a b. row_cmp a b ≡ Less) rows.new.items }
{
    rows.sort_unstable();
    rows.dedup();
}
