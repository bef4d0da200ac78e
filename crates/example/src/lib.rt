//! What the example programs share: the clearing house's example as a market with its accounts, a charge that a broker brings in, and the verdict on a figure.
#![tactic(auto)]

pub mod flat;
pub mod market;
pub mod verdicts;
