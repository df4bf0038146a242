//! The book that is given as lists.
ghost use Rattle.std.specs.Prelude.{◌≡◌, true, length};
ghost use Rattle.books.specs.Lists.{list_fits};

pub mod make;

use crate::arrangement::Arrangement;
use crate::numbers::Numbers;
use std::marker::PhantomData;

/// The levels of the types, as `A` arranges them, and a level for each figure.
#[derive(Drop)]
pub struct ListBook<L, A: Arrangement> {
    numbers: Numbers,
    levels: Vec<L>,
    figures: Vec<L>,
    arrangement: PhantomData<A>,
    ghost fit: { list_fits A.places numbers (length levels.items) (length figures.items) ≡ true },
}
