//! How long the lines of a report are, those of a kind all alike: functions that do nothing, so that a contract states each length.
ghost use Rattle.std.specs.Prelude.{◌≡◌, length};
ghost use Rattle.lines.specs.Report.{call_line, fault_line, owed_line};

use crate::report::{CallLine, FaultLine, OwedLine};

/// Each line of K has 41 bytes.
pub fn owed_width(line: OwedLine)
    ensures { length (owed_line line.name line.currency line.owed) ≡ 41 }
{}

/// Each line of N has 36 bytes.
pub fn call_width(line: CallLine)
    ensures { length (call_line line.side line.currency line.requirement line.call) ≡ 36 }
{}

/// Each line of F has 13 bytes.
pub fn fault_width(line: FaultLine)
    ensures { length (fault_line line.line line.refusal) ≡ 13 }
{}
