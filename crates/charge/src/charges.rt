//! A charge: an amount for a position, and an allowance for two that are joined.
ghost use Rattle.std.specs.Prelude.{◌≡◌};
ghost use Rattle.charge.specs.Meanings.{Meaning, Lawful};
ghost use Rattle.charge.specs.Replies.{amount_answer, allowance_answer};
ghost use Rattle.sheet.specs.Plain.{plain};

use sheet::classes::Class;
use terms::faults::Fault;

// Class and counts and no `Position`: a charge from elsewhere is asked with counts that may fit no class, and refuses them by its own label.
pub trait Charge {
    /// What the charge comes to for every class and position.
    ghost meaning: { Self → Meaning };

    /// What the position costs.
    fn amount(&self, class: &Class, position: &[i64]) -> Result<i64, Fault>
        ensures answer { result ≡ amount_answer (meaning self.now) (plain class.now) position.now };

    /// By how much two positions may cost more when they are joined.
    fn allowance(&self, class: &Class, one: &[i64], other: &[i64]) -> Result<i64, Fault>
        ensures answer { result ≡ allowance_answer (meaning self.now) (plain class.now) one.now other.now };

    /// No position, no charge; and what is joined costs at most its parts and the allowance of the joining.
    ghost lawful: { (s : Self) → Lawful (meaning s) };
}
