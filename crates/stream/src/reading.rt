//! Why a run failed.
ghost use Rattle.std.specs.Prelude.{◌≡◌};
ghost use Rattle.stream.specs.Stops.{told};
ghost use Rattle.stream.specs.declared.reading.Stop.TheVariants.{Refused};

use std::error::Error;
use std::fmt;
use std::fmt::Write;
use terms::faults::Fault;

/// Why a run failed.
#[derive(Clone, Copy, PartialEq, Eq, Debug)]
pub enum Stop {
    /// A line, or the report, was refused.
    Refused(Fault),
    /// The input could not be read.
    Unread,
    /// The output could not be written.
    Unwritten,
}

impl From<Fault> for Stop {
    ghost from_gives = { λ fault stop. stop ≡ Refused fault };

    fn from(fault: Fault) -> Stop {
        Stop::Refused(fault)
    }
}

impl fmt::Display for Stop {
    ghost output = { λ stop. told stop };

    fn fmt<W: fmt::Write>(&self, f: &mut fmt::Formatter<W>) -> fmt::Result {
        match self {
            Stop::Refused(fault) => write!(f, "{fault}"),
            Stop::Unread => f.write_str("standard input cannot be read."),
            Stop::Unwritten => f.write_str("standard output cannot be written."),
        }
    }
}

impl Error for Stop {}
