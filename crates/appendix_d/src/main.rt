//! Margins the clearing house's published example: four accounts, two classes in two currencies, and a deposit on each side.
#![tactic(auto)]

use closing::ending::close;
use std::process::ExitCode;

fn main(rt: HostRuntime) -> ExitCode {
    close(&rt)
}
