//! The scanning charge: the largest of sixteen losses.
ghost use Rattle.std.specs.Prelude.{◌≡◌, ◌<◌};
ghost use Rattle.charge.specs.Scanning.{loss};
ghost use Rattle.charge.specs.Meanings.{scanning};
ghost use Rattle.charge.specs.Lawful.{scanning_lawful};

use crate::charges::Charge;
use crate::positions::{Position, limited, no_allowance};
use sheet::classes::Class;
use terms::faults::Fault;
use terms::words::Label;

impl Position<'_> {
    /// The loss of one scenario.
    fn loss(&self, k: usize) -> i64
        requires { k < 16 }
        ensures value { result ≡ loss k self.now.class.now.series.now self.now.counts.now }
    {
        let mut sum = 0;
        // By index over the series, reading the matching counts: a form that is kept here by a rule of the project.
        for i in 0..self.class.series.len() {
            sum += self.counts[i] * self.class.series[i].array[k];
        }
        sum
    }
}

#[derive(Clone, Copy)]
pub struct Scanning;

impl Charge for Scanning {
    ghost meaning = { λ _. scanning };

    ghost lawful = { λ s. scanning_lawful };

    fn amount(&self, class: &Class, counts: &[i64]) -> Result<i64, Fault> {
        let position = Position::judged(class, counts, Label::Scanning)?;
        let worst = (0..16).map(|k| position.loss(k)).fold(0, i64::max);
        limited(worst as u64, Label::Scanning) // the fold begins at 0, so nothing is lost
    }

    fn allowance(&self, class: &Class, one: &[i64], other: &[i64]) -> Result<i64, Fault> {
        no_allowance(class, one, other, Label::Scanning)
    }
}
