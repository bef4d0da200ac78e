//! Reads a market sheet and a day's dealing from standard input, and prints what each account owes and what each side is called for.
#![tactic(auto)]

use closing::ending::close;
use std::process::ExitCode;

fn main(rt: HostRuntime) -> ExitCode {
    close(&rt)
}
