//! The book that is given a level for each type and set.
ghost use Rattle.books.specs.Places.{rows};
ghost use Rattle.books.specs.Limited.{rows_in_list};

use crate::arrangement::Arrangement;
use crate::list::ListBook;

/// 2^n levels a type, those of type 0 at each set first, then those of type 1, and so on.
pub struct Rows;

/// 2^n levels a type, in rows, and a level for each figure.
pub type RowBook<L> = ListBook<L, Rows>;

impl Arrangement for Rows {
    ghost places = { rows };

    ghost in_list = { rows_in_list };

    fn length(sets: u8, types: u16) -> usize {
        types as usize * sets as usize
    }

    fn place(sets: u8, ty: u8, set: u8) -> usize {
        ty as usize * sets as usize + set as usize
    }
}
