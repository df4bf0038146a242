//! Why numbers and lists are no book.

pub mod tells;

#[derive(Clone, Copy, PartialEq, Eq, Debug)]
pub enum BookFault {
    // A number breaks its limits, or a list has another length than the numbers ask.
    Misfit,
    // The numbers and lists fit, and there is no memory for the book.
    Memory,
}
