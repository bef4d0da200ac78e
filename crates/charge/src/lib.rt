//! What a position costs.
#![tactic(auto)]

pub mod charges;
pub mod composites;
pub mod laws;
pub mod minimum;
pub mod positions;
pub mod scanning;
pub mod spread;
