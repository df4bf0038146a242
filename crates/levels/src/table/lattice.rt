//! An order table as a lattice, and what its faults tell.
ghost use Rattle.std.specs.Prelude.{◌≡◌, ◌&&◌, cond, [], slice_index, slice_index_or};
ghost use Rattle.levels.specs.Tables.{rank, table_order, table_refusal, rows_of};
ghost use Rattle.levels.specs.Exact.{some_rows};
ghost use Rattle.levels.specs.RankLaws.{rank_laws};

use crate::Lattice;
use crate::marks::Marks;
use crate::refusal::{Fault, Place, Refusal};
use crate::table::{OrderTable, Rank, TableFault};

impl Fault for TableFault {
    ghost tells = { table_refusal };

    // The numbers are the format's.
    fn refusal(&self) -> Refusal {
        match self {
            TableFault::Shape => Refusal::broken(1, Place::Whole),
            TableFault::NoLattice => Refusal::broken(2, Place::Whole),
        }
    }
}

impl Lattice for OrderTable {
    type Level = Rank;

    ghost meaning = { table_order };

    ghost lawful = { λ s. rank_laws (rows_of s) s.lattice (some_rows (rows_of s) s.shaped) };

    fn is_level(&self, a: Rank) -> bool {
        a.number < self.count
    }

    fn le(&self, a: Rank, b: Rank) -> bool {
        self.marks().marked(a.number as u16, b.number as u16)
    }

    fn join(&self, a: Rank, b: Rank) -> Rank {
        self.held(&self.joins, a, b)
    }

    fn meet(&self, a: Rank, b: Rank) -> Rank {
        self.held(&self.meets, a, b)
    }

    fn lowest(&self) -> Rank {
        Rank { number: self.low }
    }

    fn highest(&self) -> Rank {
        Rank { number: self.high }
    }
}

impl OrderTable {
    fn are_levels(&self, a: Rank, b: Rank) -> bool
        ensures { result ≡ ((table_order self.now).is_level a && (table_order self.now).is_level b) }
    {
        self.is_level(a) && self.is_level(b)
    }

    // What a table of bounds holds for two levels, and the lowest level where one of them is none.
    fn held(&self, bounds: &[[u8; 16]; 16], a: Rank, b: Rank) -> Rank
        ensures { result ≡ cond ((table_order self.now).is_level a && (table_order self.now).is_level b) (rank (slice_index (slice_index_or bounds.now a.number []) b.number)) (table_order self.now).low }
    {
        if !self.are_levels(a, b) {
            return self.lowest();
        }
        Rank {
            number: bounds[a.number as usize][b.number as usize],
        }
    }

    // The rows that the table was made of.
    fn marks(&self) -> Marks<'_>
        ensures { result.rows.now ≡ rows_of self.now }
    {
        Marks {
            rows: &self.rows[..self.count as usize],
        }
    }
}
