//! The making of an order table.
ghost use Rattle.std.specs.Prelude.{◌≡◌, true, is_ok, IfOk, Decides};
ghost use Rattle.levels.specs.Examples.{TableExamples};
ghost use Rattle.levels.specs.Marks.{well_shaped};
ghost use Rattle.levels.specs.Refusals.{answer};
ghost use Rattle.levels.specs.Tables.{rows_of, table_order, table_refusal, table_verdict, MarksALattice, MeansTheMarks};

use crate::marks::Marks;
use crate::table::{OrderTable, TableFault};

impl OrderTable {
    /// Refuses 0 or over 16 rows and marks of levels without a row (1), and then marks that are no lattice (2).
    /// A table is made exactly of marks that are a lattice, and means the one order that they are.
    pub fn new(rows: &[u16]) -> Result<OrderTable, TableFault>
        ensures answer { answer rows_of table_refusal result ≡ table_verdict rows.now }
        ensures exactly { Decides (is_ok result) ((well_shaped rows.now ≡ true) × MarksALattice rows.now) }
        ensures means { IfOk result (λ t. MeansTheMarks rows.now (table_order t)) }
    {
        let marks = Marks::new(rows)?;
        if !marks.is_lattice() {
            return Err(TableFault::NoLattice);
        }
        Ok(OrderTable {
            rows: marks.table(),
            count: marks.count() as u8,
            low: marks.end(true).unwrap_or(0) as u8,
            high: marks.end(false).unwrap_or(0) as u8,
            joins: marks.bound_table(true),
            meets: marks.bound_table(false),
        })
    }
}

/// The worked examples of order tables.
pub fn table_examples_stand()
    ensures { TableExamples }
{}
