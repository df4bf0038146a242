//! Worked examples of lattices and books, run.
#![tactic(auto)]

#[cfg(test)]
mod lattices;
#[cfg(test)]
mod shelves;
