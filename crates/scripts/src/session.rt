//! What a script has made so far, and its commands.
use crate::draft::{Draft, Owner};
use crate::transcript::Transcript;
use layout::lists::OwnedLists;
use std::alloc::Global;

pub mod commands;
pub mod obey;

/// One of the three byte lists of a program.
#[derive(Clone, Copy, PartialEq, Eq, Debug)]
pub enum Section {
    Nodes,
    Functions,
    Apps,
}

/// The commands that follow `scenario`.
#[derive(Clone, Copy, PartialEq, Eq, Debug)]
pub enum Command {
    Lattice,
    Book,
    Levels(Owner),
    Policy,
    // Bytes in hexadecimal.
    Add(Section),
    Clear,
}

/// What was done so far.
#[derive(Clone, Copy)]
pub struct Tally {
    scenarios: u64,
    // The answers of `policy`.
    made: u64,
    refused: u64,
}

/// The three byte lists of a program.
pub type Source = OwnedLists;

/// A script that is being obeyed.
#[derive(Drop)]
pub struct Session {
    heap: Global,
    // The lattice that was made, with the book that was chosen over it.
    draft: Option<Draft>,
    source: Source,
    tally: Tally,
    transcript: Transcript,
}
