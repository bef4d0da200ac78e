//! A side's requirement: what its accounts owe together.
ghost use Rattle.std.specs.Prelude.{◌≡◌, ◌≤◌, map};
ghost use Rattle.collateral.specs.declared.statements.TheConstants.{OWED_LIMIT};
ghost use Rattle.collateral.specs.Requirements.{NoneLessens, owed_by, owes, requirement_of};

use crate::statements::{OWED_LIMIT, Statement, Statements};
use terms::words::{Currency, Side};

impl Statement {
    /// What it adds to a side's requirement in a currency: what it owes, where it settles through that side.
    fn adds(&self, side: Side, currency: Currency) -> u64
        ensures value { result ≡ owed_by side currency (owes self.now) }
        ensures bound { result ≤ OWED_LIMIT }
    {
        if self.side == side {
            self.owed[currency.number()]
        } else {
            0
        }
    }
}

impl Statements {
    /// A side's requirement in a currency: the sum of what its accounts owe.
    #[tactic(auto, using(crate::proofs::Totals::none_lessens))]
    pub fn requirement(&self, side: Side, currency: Currency) -> u64
        ensures value { result ≡ requirement_of side currency (map owes self.now) }
        ensures law { NoneLessens }
        ensures bound { result ≤ 3200000000000 }
    {
        self.as_slice()
            .iter()
            .map(|statement| statement.adds(side, currency))
            .sum()
    }
}
