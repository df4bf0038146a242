//! The book that is given one level a type, for every set.
ghost use Rattle.books.specs.Places.{fixed};
ghost use Rattle.books.specs.Limited.{fixed_in_list};

use crate::arrangement::Arrangement;
use crate::list::ListBook;

/// One level a type.
pub struct Fixed;

/// One level a type, and a level for each figure.
pub type FixedBook<L> = ListBook<L, Fixed>;

impl Arrangement for Fixed {
    ghost places = { fixed };

    ghost in_list = { fixed_in_list };

    fn length(_sets: u8, types: u16) -> usize {
        types as usize
    }

    fn place(_sets: u8, ty: u8, _set: u8) -> usize {
        ty as usize
    }
}
