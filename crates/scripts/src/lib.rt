//! Scenario scripts: the text of a script, its commands, and the transcript.
#![tactic(auto)]

mod arguments;
pub mod draft;
pub mod fault;
pub mod hex;
mod lattice_words;
pub mod number;
pub mod parts;
pub mod pieces;
pub mod policy;
pub mod script;
pub mod session;
pub mod shape;
pub mod spelled;
pub mod transcript;
pub mod words;
