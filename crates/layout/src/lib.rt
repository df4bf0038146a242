//! The nodes and functions of a program, and how they are bytes. The lower half of reading.
#![tactic(auto)]

pub mod decode;
pub mod entry;
pub mod function;
pub mod lists;
pub mod node;
pub mod operands;
pub mod parts;
