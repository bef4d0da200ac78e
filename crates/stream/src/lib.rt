//! Cuts an input into its lines, in constant memory.
#![tactic(auto)]

pub mod lines;
pub mod reading;
