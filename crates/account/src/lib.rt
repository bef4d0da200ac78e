//! What one account owes, by one rule for every charge.
#![tactic(auto)]

pub mod accounts;
mod figures;
pub mod offset;
pub mod pieces;
pub mod pools;
pub mod positions;
pub mod rule;
mod sums;
