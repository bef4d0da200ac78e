//! Accounts of the clearing house's example, margined by PRiME's charge and by others, each figure beside the one that is worked out by hand.
#![tactic(auto)]

mod accounts;
mod cents;
mod margins;

use crate::accounts::show_accounts;
use crate::cents::show_cents;
use std::io;

fn main(rt: HostRuntime) -> io::Result<()> {
    show_accounts(&rt)?;
    show_cents(&rt)
}
