//! Why bytes are not read.
ghost use Rattle.std.specs.Prelude.{◌≡◌};
ghost use Rattle.reading.specs.ReadingRefusal.{reading_refusal};

use levels::refusal::{Fault, Layer, Place, Refusal};

/// A broken rule of reading, at its place; or want of memory for bytes that break none.
#[derive(Clone, Copy, PartialEq, Eq, Debug)]
pub enum ReadingFault {
    // The counts of nodes, functions or apps break their limits, or bytes are left over.
    Sizes,
    // A function breaks its layout, names a missing app, or does not end after the one before it; or the last does not end with the nodes.
    Record(u8),
    // A node has an unknown code, an unused operand that is not 0, or a slot that its function has not.
    Malformed(u16),
    // A node names one that is not lower, of another function or of the wrong sort, or a body is no command.
    Misnamed(u16),
    // A call names a function that is not lower, or has the wrong number of arguments.
    Miscalled(u16),
    // A node other than a body is not named exactly once.
    NotNamedOnce(u16),
    // A slot is used where it is not usable, or a let takes one that is.
    OutOfScope(u16),
    Memory,
}

impl Fault for ReadingFault {
    ghost tells = { reading_refusal };

    // The numbers are the format's.
    fn refusal(&self) -> Refusal {
        match *self {
            ReadingFault::Sizes => Refusal::broken(4, Place::Whole),
            ReadingFault::Record(g) => Refusal::broken(5, Place::Function(g)),
            ReadingFault::Malformed(i) => Refusal::broken(6, Place::Node(i)),
            ReadingFault::Misnamed(i) => Refusal::broken(7, Place::Node(i)),
            ReadingFault::Miscalled(i) => Refusal::broken(8, Place::Node(i)),
            ReadingFault::NotNamedOnce(i) => Refusal::broken(9, Place::Node(i)),
            ReadingFault::OutOfScope(i) => Refusal::broken(10, Place::Node(i)),
            ReadingFault::Memory => Refusal::no_memory(Layer::Reading),
        }
    }
}
