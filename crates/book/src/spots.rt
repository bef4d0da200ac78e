//! Where a dealing falls: the account, the series and the number of contracts that it names.
ghost use Rattle.std.specs.Prelude.{◌≡◌, ℕ, ◌+◌, ◌<◌, ◌≤◌, length, IfOk, IfSome, Some, None};
ghost use borrow.Author.Differences.{up};
ghost use Rattle.terms.specs.Faults.{refusal, unless};
ghost use Rattle.terms.specs.Keys.{figured};
ghost use Rattle.register.specs.Rows.{sought};
ghost use Rattle.sheet.specs.Rows.{series_rank};
ghost use Rattle.book.specs.Rows.{account_rank, row_at, slot_in};
ghost use Rattle.terms.specs.Names.{spelled};
ghost use Rattle.book.specs.View.{view};
ghost use Rattle.book.specs.Limits.{name_of, asked};
ghost use Rattle.book.specs.Found.{not_there, there, absent, deal_fault, move_fault, Falls, at_spot, more, less};

use crate::books::Book;
use crate::dealings::{Dealing, Pair, Spot};
use crate::limits::{named_twice, within_limits};
use crate::rows::AccountRow;
use terms::codes::Code;
use terms::faults::{Fault, Place};
use terms::keys::{AskedKey, SeriesKey};
use terms::limits::OutsideLimits;
use terms::names::Name;
use terms::words::{Layer, Leg, Refusal};

/// The fault that names what is absent.
pub(crate) fn unknown(account: Option<Name>, class: Option<Code>) -> Fault
    ensures value { result ≡ not_there account class }
{
    let fault = Fault::new(Refusal::Unknown, Layer::Book);
    Fault {
        place: Place {
            account,
            class,
            ..fault.place
        },
        ..fault
    }
}

impl Book<'_, '_> {
    /// The opening number of the account with a name.
    pub(crate) fn slot_of(&self, name: &Name) -> Option<usize>
        ensures value { result ≡ slot_in (view self.now).accounts name.now }
        ensures bound { (i : ℕ) → result ≡ Some i → i < length (view self.now).accounts }
    {
        let place = self.accounts.find(name)?;
        let row = self.accounts.get(place)?;
        Some(row.slot)
    }

    /// The row of the account with a name.
    pub(crate) fn row_of(&self, name: &Name) -> Option<AccountRow>
        ensures value { result ≡ row_at (view self.now).accounts (sought account_rank (spelled name.now) (view self.now).accounts) }
        ensures bound { IfSome result (λ row. row.slot < length (view self.now).accounts) }
    {
        let place = self.accounts.find(name)?;
        self.accounts.get(place)
    }

    /// The place of the series with a key.
    fn series_of(&self, key: &SeriesKey) -> Option<usize>
        ensures value { result ≡ sought series_rank (figured key.now) (view self.now).series }
        ensures bound { (j : ℕ) → result ≡ Some j → j < 128 }
    {
        self.sheet.find_series(key)
    }

    /// The spot of a dealing, or the fault that names what of it is absent.
    fn found(&self, deal: Dealing) -> Result<Spot, Fault>
        ensures fault { refusal result ≡ unless (there (view self.now) deal.name deal.key) (absent (view self.now) deal.name deal.key) None }
        ensures spot { IfOk result (Falls (view self.now) deal.name deal.key deal.contracts) }
        ensures open { IfOk result (λ p. p.slot < length (view self.now).accounts) }
    {
        match (self.slot_of(&deal.name), self.series_of(&deal.key)) {
            (Some(slot), Some(series)) => Ok(Spot {
                name: deal.name,
                slot,
                series,
                contracts: deal.contracts,
            }),
            (slot, series) => Err(unknown(
                slot.is_none().then_some(deal.name),
                series.is_none().then_some(deal.key.class),
            )),
        }
    }

    /// The spot that a dealing names, or the first fault of its limits and of what is absent.
    pub(crate) fn spot(&self, name: &[u8], key: AskedKey, contracts: i64) -> Result<Spot, Fault>
        ensures fault { refusal result ≡ deal_fault (view self.now) name.now key contracts }
        ensures spot { IfOk result (Falls (view self.now) (name_of name.now) (asked key) (up contracts)) }
        ensures open { IfOk result (λ p. p.slot < length (view self.now).accounts) }
    {
        let deal = within_limits(name, key, contracts)?;
        self.found(deal)
    }

    /// The two spots of a move, or the first fault of its limits and of what is absent.
    pub(crate) fn pair(
        &self,
        from: &[u8],
        to: &[u8],
        key: AskedKey,
        contracts: i64,
    ) -> Result<Pair, Fault>
        ensures fault { refusal result ≡ move_fault (view self.now) from.now to.now key contracts }
        ensures source { IfOk result (λ p. Falls (view self.now) (name_of from.now) (asked key) (up contracts) p.from) }
        ensures target { IfOk result (λ p. Falls (view self.now) (name_of to.now) (asked key) (up contracts) p.to) }
        ensures source_open { IfOk result (λ p. p.from.slot < length (view self.now).accounts) }
        ensures target_open { IfOk result (λ p. p.to.slot < length (view self.now).accounts) }
    {
        if let Some(name) = named_twice(from, to) {
            return Err(Fault::from(OutsideLimits).with_account(name));
        }
        let deal = within_limits(from, key, contracts)?;
        let name = Name::try_from(to)?;
        let Some(slot) = self.slot_of(&deal.name) else {
            let series = self.series_of(&deal.key);
            let class = series.is_none().then_some(deal.key.class);
            return Err(unknown(Some(deal.name), class));
        };
        let to = self.found(Dealing {
            name,
            key: deal.key,
            contracts: deal.contracts,
        })?;
        let from = Spot {
            name: deal.name,
            slot,
            series: to.series,
            contracts: to.contracts,
        };
        Ok(Pair { from, to })
    }

    // The three below take a spot on an account of this book. No spot knows how many accounts there are, so what finds one says that its
    // account is open, and what uses it asks that.

    /// The count of a leg at a spot.
    pub(crate) fn count_at(&self, spot: &Spot, leg: Leg) -> u32
        requires open { spot.now.slot < length (view self.now).accounts }
        ensures value { result ≡ at_spot (view self.now) spot.now leg }
        ensures bound { result ≤ 100000 }
    {
        self.counts.slots[spot.place(leg)]
    }

    /// Adds the contracts to the count of a leg at their spot.
    pub(crate) fn add_at(&mut self, spot: &Spot, leg: Leg)
        requires open { spot.now.slot < length (view self.old).accounts }
        requires space { at_spot (view self.old) spot.now leg + spot.now.contracts ≤ 100000 }
        ensures after { view self.new ≡ more (view self.old) spot.now leg }
        ensures accounts { length (view self.new).accounts ≡ length (view self.old).accounts }
    {
        self.counts.slots[spot.place(leg)] += spot.contracts;
    }

    /// Takes the contracts from the count of a leg at their spot.
    pub(crate) fn take_at(&mut self, spot: &Spot, leg: Leg)
        requires open { spot.now.slot < length (view self.old).accounts }
        requires held { spot.now.contracts ≤ at_spot (view self.old) spot.now leg }
        ensures after { view self.new ≡ less (view self.old) spot.now leg }
        ensures accounts { length (view self.new).accounts ≡ length (view self.old).accounts }
    {
        self.counts.slots[spot.place(leg)] -= spot.contracts;
    }
}
