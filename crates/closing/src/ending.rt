//! How a program over standard input ends: with the report, or with the fault's line and status 1.
use crate::days::margin_day;
use crate::printing::fault_line;
use std::process::ExitCode;
use stream::reading::Stop;

/// Margins the day on standard input and prints its report. Standard error says why where the status is 1.
pub fn close(rt: &HostRuntime) -> ExitCode {
    let Err(stop) = report(rt) else {
        return ExitCode::SUCCESS;
    };
    let _ = match stop {
        Stop::Refused(fault) => {
            let _ = print!(rt; "{}", fault_line(fault));
            eprintln!(rt; "{fault}")
        }
        _ => eprintln!(rt; "margin: {stop}"),
    };
    ExitCode::FAILURE
}

/// The report is printed only when every figure is there.
fn report(rt: &HostRuntime) -> Result<(), Stop> {
    let day = margin_day(rt.stdin())?;
    print!(rt; "{day}").map_err(|_| Stop::Unwritten)
}
