//! The minimum charge: short counts at the minimum rate.
ghost use Rattle.std.specs.Prelude.{◌≡◌, ◌≤◌};
ghost use Rattle.charge.specs.Minimum.{shorts};
ghost use Rattle.charge.specs.Meanings.{minimum};
ghost use Rattle.charge.specs.Lawful.{minimum_lawful};

use crate::charges::Charge;
use crate::positions::{Position, limited, no_allowance};
use sheet::classes::Class;
use terms::faults::Fault;
use terms::words::{Kind, Label};

impl Position<'_> {
    /// The short counts of one kind, added without their signs.
    fn shorts(&self, kind: Kind) -> u64
        ensures value { result ≡ shorts kind self.now.class.now.series.now self.now.counts.now }
        ensures bound { result ≤ 409600000 }
    {
        self.counts
            .iter()
            .zip(self.class.series)
            .filter(|(count, series)| **count < 0 && series.key.kind == kind)
            .map(|(count, _)| count.unsigned_abs())
            .sum()
    }
}

#[derive(Clone, Copy)]
pub struct Minimum;

impl Charge for Minimum {
    ghost meaning = { λ _. minimum };

    ghost lawful = { λ s. minimum_lawful };

    fn amount(&self, class: &Class, counts: &[i64]) -> Result<i64, Fault> {
        let position = Position::judged(class, counts, Label::Minimum)?;
        let calls = position.shorts(Kind::Call);
        let puts = position.shorts(Kind::Put);
        limited(
            calls.max(puts) * u64::from(class.minimum_rate),
            Label::Minimum,
        )
    }

    fn allowance(&self, class: &Class, one: &[i64], other: &[i64]) -> Result<i64, Fault> {
        no_allowance(class, one, other, Label::Minimum)
    }
}
