//! The book that a script chooses over a lattice.
ghost use Rattle.std.specs.Prelude.{◌≡◌};
ghost use Rattle.scripts.specs.Scenes.{sketch, bare, emptied};

use crate::shape::{Shape, ShapeLevel};
use books::numbers::Numbers;
use std::alloc::Global;

mod given;
pub mod plan;
pub mod policy;

#[derive(Clone, Copy, PartialEq, Eq, Debug)]
pub enum BookKind {
    Row,
    Fixed,
}

/// Whose levels a line gives.
#[derive(Clone, Copy, PartialEq, Eq, Debug)]
pub enum Owner {
    Types,
    Figures,
}

/// Which book is to be made, by its numbers as the script gives them.
#[derive(Clone, Copy, PartialEq, Eq, Debug)]
pub struct BookPlan {
    kind: BookKind,
    numbers: Numbers,
}

// No model: its value would hold the shape, whose tables have ghost fields. A session has none for the same reason.
/// A lattice that was made, the book that was chosen over it, and the levels given so far.
#[derive(Drop)]
pub struct Draft {
    shape: Shape,
    plan: Option<BookPlan>,
    levels: Vec<ShapeLevel>,
    figures: Vec<ShapeLevel>,
}

impl Draft {
    /// A lattice without a book.
    pub fn new(heap: Global, shape: Shape) -> Draft
        ensures { sketch result ≡ bare shape }
    {
        Draft {
            shape,
            plan: None,
            levels: Vec::new(heap),
            figures: Vec::new(heap),
        }
    }

    /// Chooses a book, of which no level is given yet.
    pub fn choose(&mut self, plan: BookPlan)
        ensures { sketch self.new ≡ emptied (sketch self.old) plan }
    {
        self.plan = Some(plan);
        self.levels.clear();
        self.figures.clear();
    }
}
