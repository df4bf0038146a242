//! Reading: a program in bytes, read exactly, and written again.
#![tactic(auto)]

mod bytes;
mod calls;
mod codes;
pub mod fault;
mod functions;
mod judge;
mod laws;
mod marks;
mod names;
mod namings;
mod owners;
pub mod program;
mod records;
mod refuse;
mod scopes;
mod view;

pub use laws::laws_stand;
