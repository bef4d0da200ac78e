//! What a dealing names, and where it falls.
ghost use Rattle.std.specs.Prelude.{◌<◌, ◌≤◌};

use crate::counts::place_of;
use terms::keys::SeriesKey;
use terms::names::Name;
use terms::words::Leg;

/// What a dealing names, each part within its limits.
#[derive(Clone, Copy)]
pub(crate) struct Dealing {
    pub name: Name,
    pub key: SeriesKey,
    pub contracts: u32,
    ghost few: { contracts ≤ 100000 },
}

/// A dealing with its account's opening number and its series' place on the sheet.
#[derive(Clone, Copy)]
pub(crate) struct Spot {
    pub name: Name,
    pub slot: usize,
    pub series: usize,
    pub contracts: u32,
    ghost opened: { slot < 32 },
    ghost listed: { series < 128 },
    ghost few: { contracts ≤ 100000 },
}

impl Spot {
    ghost use Rattle.std.specs.Prelude.{◌≡◌, ◌+◌, ◌*◌, ◌<◌, ◌≤◌};
    ghost use Rattle.book.specs.State.{cell};

    /// Where the count of a leg stands.
    pub(crate) fn place(&self, leg: Leg) -> usize
        ensures value { result ≡ cell self.now.slot self.now.series leg }
        ensures low { self.now.slot * 256 ≤ result }
        ensures high { result < self.now.slot * 256 + 256 }
    {
        place_of(self.slot, self.series, leg)
    }
}

/// The two spots of a move.
#[derive(Clone, Copy)]
pub(crate) struct Pair {
    pub from: Spot,
    pub to: Spot,
}
