//! Examples of scripts, run.
#![tactic(auto)]

#[cfg(test)]
mod faults;
#[cfg(test)]
mod texts;
