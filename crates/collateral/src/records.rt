//! The collateral of one side in one currency.

/// What was brought, the last notice that was not met, and the amount of a notice that is out: no call issues a notice yet.
#[derive(Clone, Copy, PartialEq, Eq, Default, Debug)]
pub struct Collateral {
    pub held: u64,
    pub unmet: u64,
    pub out: Option<u64>,
}
