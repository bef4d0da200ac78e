//! The row of an account.
ghost use Rattle.terms.specs.Names.{spelled};

use register::Keyed;
use std::cmp::Ordering;
use terms::names::Name;
use terms::words::{Basis, Side};

#[derive(Clone, Copy)]
pub struct AccountRow {
    pub name: Name,
    pub basis: Basis,
    pub side: Side,
    /// The opening number: its counts stand there.
    pub slot: usize,
}

impl Keyed for AccountRow {
    type Key = Name;

    ghost rank = { λ r. spelled r.name };

    ghost wanted = { spelled };

    fn key(&self) -> Name {
        self.name
    }

    #[tactic(auto, using(terms::specs::Compared::name_order))]
    fn compare(&self, key: &Name) -> Ordering {
        self.name.cmp(key)
    }
}
