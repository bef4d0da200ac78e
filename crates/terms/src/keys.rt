//! The key of a series: class, month, kind, strike.
ghost use Rattle.std.specs.Prelude.{◌≡◌};
ghost use Rattle.terms.specs.Keys.{key_of};
ghost use Rattle.terms.specs.Limits.{Gives};

use crate::codes::Code;
use crate::limits::{OutsideLimits, within};
use crate::words::Kind;

/// A series as a caller names it: its numbers as given, not yet held against their limits.
#[derive(Clone, Copy, PartialEq, Eq, Debug)]
pub struct AskedKey {
    pub class: Code,
    pub month: i64,
    pub kind: Kind,
    pub strike: i64,
}

/// The key by which a series stands on a sheet.
#[derive(Clone, Copy, PartialEq, Eq, PartialOrd, Ord, Debug)]
pub struct SeriesKey {
    pub class: Code,
    pub month: u32,
    pub kind: Kind,
    pub strike: u32,
}

/// The key, if its class is three capitals, its month a month of 2000 to 2099, and its strike 1 to 99,999,999 cents.
impl TryFrom<AskedKey> for SeriesKey {
    type Error = OutsideLimits;

    ghost try_from_gives = { λ asked r. Gives (key_of asked) r };

    fn try_from(asked: AskedKey) -> Result<SeriesKey, OutsideLimits> {
        if !asked.class.is_proper() {
            return Err(OutsideLimits);
        }
        let month = within(asked.month, 200_001, 209_912)?;
        if !(1..=12).contains(&(month % 100)) {
            return Err(OutsideLimits);
        }
        let strike = within(asked.strike, 1, 99_999_999)?;
        Ok(SeriesKey {
            class: asked.class,
            month,
            kind: asked.kind,
            strike,
        })
    }
}
