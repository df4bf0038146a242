//! Levels numbered from 0, with a table of their order.
ghost use Rattle.std.specs.Prelude.{◌≡◌, ℕ, ◌≤◌, true, false, length, take};
ghost use Rattle.std.specs.Option.{unwrap_or};
ghost use Rattle.levels.specs.Marks.{well_shaped, is_lattice, end};
ghost use Rattle.levels.specs.Bounds.{HoldsBounds};

pub mod lattice;
pub mod make;

/// A level of an order table.
#[derive(Clone, Copy, PartialEq, Eq, Debug)]
pub struct Rank {
    pub number: u8,
}

/// A lattice of up to 16 levels. Bit j of row i marks that level i is at or below level j.
/// What follows from the marks is worked out at the making.
#[derive(Clone, Copy)]
pub struct OrderTable {
    // Fixed memory: a table is `Copy`, and its making wants no heap.
    rows: [u16; 16],
    count: u8,
    low: u8,
    high: u8,
    joins: [[u8; 16]; 16],
    meets: [[u8; 16]; 16],
    ghost few: { count ≤ 16 },
    ghost shaped: { well_shaped (take count rows) ≡ true },
    ghost lattice: { is_lattice (take count rows) ≡ true },
    ghost lowest: { low ≡ unwrap_or (end true (take count rows)) 0 },
    ghost highest: { high ≡ unwrap_or (end false (take count rows)) 0 },
    ghost joined: { HoldsBounds true (take count rows) joins },
    ghost met: { HoldsBounds false (take count rows) meets },
}

/// Why rows are no order table.
#[derive(Clone, Copy, PartialEq, Eq, Debug)]
pub enum TableFault {
    // There are 0 or over 16 rows, or a level without a row is marked.
    Shape,
    // The marks are not a lattice.
    NoLattice,
}
