//! Why a script is at fault.
ghost use Rattle.std.specs.Prelude.{◌≡◌};
ghost use Rattle.scripts.specs.declared.fault.ScriptFault.TheVariants.{Memory};
ghost use Rattle.scripts.specs.Faults.{of_hex};

use crate::hex::HexFault;
use std::alloc::{AllocError, AllocFailed};
use std::error::Error;
use std::fmt;

#[derive(Clone, Copy, PartialEq, Eq, Debug)]
pub enum ScriptFault {
    // The first command is not `scenario`.
    NoScenario,
    UnknownCommand,
    MissingWord,
    ExtraWord,
    NoNumber,
    // A word of hexadecimal digits has another character, or a line an odd count of digits.
    NoHex,
    OddHex,
    NoLevel,
    NoLattice,
    // A book is neither `row` nor `fixed`.
    NoBook,
    // A command that needs a lattice came before one was made.
    WantsLattice,
    // A command that needs a book came before one was chosen.
    WantsBook,
    // The script is not at fault, and there is no memory to go on.
    Memory,
}

impl fmt::Display for ScriptFault {
    fn fmt<W: fmt::Write>(&self, f: &mut fmt::Formatter<W>) -> fmt::Result {
        f.write_str(match self {
            ScriptFault::NoScenario => "the first command of a script is 'scenario'",
            ScriptFault::UnknownCommand => "there is no such command",
            ScriptFault::MissingWord => "a word is missing",
            ScriptFault::ExtraWord => "there is a word too many",
            ScriptFault::NoNumber => "a word is no number of at most 4294967295",
            ScriptFault::NoHex => "a character is no hexadecimal digit",
            ScriptFault::OddHex => "the count of hexadecimal digits is odd",
            ScriptFault::NoLevel => "a word is no level of the lattice's shape",
            ScriptFault::NoLattice => "the words are no lattice",
            ScriptFault::NoBook => "a book is 'row' or 'fixed'",
            ScriptFault::WantsLattice => "no lattice is made",
            ScriptFault::WantsBook => "no book is chosen",
            ScriptFault::Memory => "out of memory",
        })
    }
}

impl Error for ScriptFault {}

impl From<AllocError> for ScriptFault {
    ghost from_gives = { λ _ r. r ≡ Memory };

    fn from(_e: AllocError) -> ScriptFault {
        ScriptFault::Memory
    }
}

impl<T: Drop> From<AllocFailed<T>> for ScriptFault {
    ghost from_gives = { λ _ r. r ≡ Memory };

    fn from(_e: AllocFailed<T>) -> ScriptFault {
        ScriptFault::Memory
    }
}

impl From<HexFault> for ScriptFault {
    ghost from_gives = { λ e r. r ≡ of_hex e };

    fn from(fault: HexFault) -> ScriptFault {
        match fault {
            HexFault::NoDigit => ScriptFault::NoHex,
            HexFault::OddCount => ScriptFault::OddHex,
            HexFault::Memory => ScriptFault::Memory,
        }
    }
}

/// A fault of a script, with the number of its line.
#[derive(Clone, Copy, PartialEq, Eq, Debug)]
pub struct LineFault {
    pub line: usize,
    pub fault: ScriptFault,
}

impl fmt::Display for LineFault {
    fn fmt<W: fmt::Write>(&self, f: &mut fmt::Formatter<W>) -> fmt::Result {
        write!(f, "line {}: {}", self.line, self.fault)
    }
}

impl Error for LineFault {}
