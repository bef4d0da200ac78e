//! What each side brings: collateral in each currency, and what is called of it.
#![tactic(auto)]

pub mod calls;
pub mod ledger;
pub mod records;
pub mod requirements;
pub mod statements;
