//! A charge that a broker brings in: so many cents for every contract, long or short.
ghost use Rattle.std.specs.Prelude.{◌≡◌, ◌≤◌};
ghost use Rattle.example.specs.Flat.{flat, gross};
ghost use Rattle.example.specs.FlatChargeLemmas.{flat_lawful};

use charge::charges::Charge;
use charge::positions::{Position, limited, no_allowance};
use sheet::classes::Class;
use terms::faults::Fault;
use terms::words::Label;

/// The label that it refuses by.
const OWN: Label = Label::Other(20);

#[derive(Clone, Copy)]
pub struct FlatRate {
    pub cents: u32,
}

/// The contracts of a position, longs and shorts alike.
fn gross_of(position: &Position) -> u64
    ensures value { result ≡ gross position.now.counts.now }
    ensures bound { result ≤ 409600000 }
{
    position
        .counts
        .iter()
        .map(|count| count.unsigned_abs())
        .sum()
}

impl Charge for FlatRate {
    ghost meaning = { λ s. flat s.cents };

    ghost lawful = { λ s. flat_lawful s.cents };

    fn amount(&self, class: &Class, counts: &[i64]) -> Result<i64, Fault> {
        let position = Position::judged(class, counts, OWN)?;
        limited(gross_of(&position) * u64::from(self.cents), OWN)
    }

    fn allowance(&self, class: &Class, one: &[i64], other: &[i64]) -> Result<i64, Fault> {
        no_allowance(class, one, other, OWN)
    }
}
