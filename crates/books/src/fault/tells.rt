//! What the faults of a book tell.
ghost use Rattle.std.specs.Prelude.{◌≡◌};
ghost use Rattle.books.specs.Made.{book_refusal};
ghost use Rattle.books.specs.declared.fault.BookFault.TheVariants.{Memory};

use crate::fault::BookFault;
use levels::refusal::{Fault, Layer, Place, Refusal};
use std::alloc::AllocError;

impl Fault for BookFault {
    ghost tells = { book_refusal };

    // The number is the format's.
    fn refusal(&self) -> Refusal {
        match self {
            BookFault::Misfit => Refusal::broken(3, Place::Whole),
            BookFault::Memory => Refusal::no_memory(Layer::Books),
        }
    }
}

impl From<AllocError> for BookFault {
    ghost from_gives = { λ _ r. r ≡ Memory };

    fn from(_e: AllocError) -> BookFault {
        BookFault::Memory
    }
}
