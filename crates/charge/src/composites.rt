//! Charges made of two, their sum and the greater of them, and the charge of the PRiME method.
ghost use Rattle.std.specs.Prelude.{◌≡◌, pos, IfOk};
ghost use Rattle.charge.specs.Lawful.{summed_lawful, greater_lawful};
ghost use Rattle.charge.specs.Meanings.{Lawful, summed, greater, prime_meaning};
ghost use Rattle.charge.specs.Prime.{prime_amount};
ghost use Rattle.charge.specs.Replies.{amount_answer, allowance_answer};
ghost use Rattle.sheet.specs.Plain.{plain};

use crate::charges::Charge;
use crate::minimum::Minimum;
use crate::positions::limited;
use crate::scanning::Scanning;
use crate::spread::Spread;
use sheet::classes::Class;
use terms::faults::Fault;
use terms::words::Label;

// Two structs, by a rule of the project: a charge's type says how it is made. Their bodies differ by `+`, `max` and the label alone: one function for both, over two answers and a
// closure, is longer than they are. A figure is never negative, so `as u64` loses nothing.

/// The sum of two charges.
#[derive(Clone, Copy)]
pub struct Sum<A, B>(pub A, pub B);

impl<A: Charge, B: Charge> Charge for Sum<A, B> {
    ghost meaning = { λ s. summed (A.Charge.meaning s.0) (B.Charge.meaning s.1) };

    ghost lawful = { λ s. summed_lawful (A.Charge.meaning s.0) (B.Charge.meaning s.1) (A.Charge.lawful s.0) (B.Charge.lawful s.1) };

    fn amount(&self, class: &Class, position: &[i64]) -> Result<i64, Fault> {
        let first = self.0.amount(class, position)? as u64;
        let second = self.1.amount(class, position)? as u64;
        limited(first + second, Label::Sum)
    }

    fn allowance(&self, class: &Class, one: &[i64], other: &[i64]) -> Result<i64, Fault> {
        let first_allowance = self.0.allowance(class, one, other)? as u64;
        let second_allowance = self.1.allowance(class, one, other)? as u64;
        limited(first_allowance + second_allowance, Label::Sum)
    }
}

/// The greater of two charges.
#[derive(Clone, Copy)]
pub struct Greater<A, B>(pub A, pub B);

impl<A: Charge, B: Charge> Charge for Greater<A, B> {
    ghost meaning = { λ s. greater (A.Charge.meaning s.0) (B.Charge.meaning s.1) };

    ghost lawful = { λ s. greater_lawful (A.Charge.meaning s.0) (B.Charge.meaning s.1) (A.Charge.lawful s.0) (B.Charge.lawful s.1) };

    fn amount(&self, class: &Class, position: &[i64]) -> Result<i64, Fault> {
        let left = self.0.amount(class, position)? as u64;
        let right = self.1.amount(class, position)? as u64;
        limited(left.max(right), Label::Greater)
    }

    fn allowance(&self, class: &Class, one: &[i64], other: &[i64]) -> Result<i64, Fault> {
        let left_allowance = self.0.allowance(class, one, other)? as u64;
        let right_allowance = self.1.allowance(class, one, other)? as u64;
        limited(left_allowance.max(right_allowance), Label::Greater)
    }
}

/// The charge of the PRiME method: the greater of (scanning plus spread) and the minimum.
pub type Prime = Greater<Sum<Scanning, Spread>, Minimum>;

pub fn prime() -> Prime
    ensures meaning { ⟦<Prime as Charge>⟧.meaning result ≡ prime_meaning }
    ensures law { Lawful prime_meaning }
{
    Greater(Sum(Scanning, Spread), Minimum)
}

/// What a position costs by the PRiME method.
pub fn prime_amount(class: &Class, position: &[i64]) -> Result<i64, Fault>
    ensures answer { result ≡ amount_answer prime_meaning (plain class.now) position.now }
    ensures figure { IfOk result (λ z. z ≡ pos (prime_amount (plain class.now) position.now)) }
{
    prime().amount(class, position)
}

/// By how much two positions may cost more when they are joined.
pub fn prime_allowance(class: &Class, one: &[i64], other: &[i64]) -> Result<i64, Fault>
    ensures answer { result ≡ allowance_answer prime_meaning (plain class.now) one.now other.now }
{
    prime().allowance(class, one, other)
}
