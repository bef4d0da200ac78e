//! The calls by which a book is dealt on.
ghost use Rattle.std.specs.Prelude.{◌≡◌, length};
ghost use Rattle.terms.specs.Faults.{refusal};
ghost use Rattle.book.specs.Law.{BookLaw};
ghost use Rattle.book.specs.State.{empty};
ghost use Rattle.book.specs.View.{view};
ghost use Rattle.book.specs.Uses.{Opening, Posting, Closing, Moving, Step, at_both};

use crate::books::Book;
use crate::counts::{Counts, STRIDE};
use crate::limits::CEILING;
use crate::rows::AccountRow;
use register::Register;
use sheet::sheets::Sheet;
use terms::codes::Code;
use terms::faults::Fault;
use terms::keys::AskedKey;
use terms::names::Name;
use terms::words::{Basis, Layer, Leg, Refusal, Side};

/// How many accounts a book has at most.
pub const MOST_ACCOUNTS: usize = 32;

/// A fault that names account and class.
pub(crate) fn at_both(refusal: Refusal, account: Name, class: Code) -> Fault
    ensures value { result ≡ at_both refusal account class }
{
    Fault::new(refusal, Layer::Book)
        .with_account(account)
        .with_class(class)
}

impl<'s, 'a> Book<'s, 'a> {
    /// A book without accounts, over memory that may hold anything.
    pub fn new(sheet: Sheet<'s>, rows: &'a mut [AccountRow], counts: &'a mut [u32]) -> Book<'s, 'a>
        ensures value { view result ≡ empty sheet.entry.rates.by_number sheet.entry.classes.now sheet.entry.series.now (length rows.old) counts.old }
        ensures law { BookLaw (view result) }
    {
        Book {
            sheet,
            accounts: Register::new(rows),
            counts: Counts { slots: counts },
        }
    }

    /// Opens an account with all counts 0; refused 3 (the name has no form), 4 (it is there already), 6 (no room).
    pub fn open(&mut self, name: &[u8], basis: Basis, side: Side) -> Result<(), Fault>
        ensures step { Step (view self.old) (Opening name.now basis side) (refusal result) (view self.new) }
    {
        let name = Name::try_from(name)?;
        if self.accounts.find(&name).is_some() {
            return Err(Fault::new(Refusal::Twice, Layer::Book).with_account(name));
        }
        let slot = self.accounts.len();
        if self.counts.len() < slot * STRIDE + STRIDE {
            return Err(Fault::new(Refusal::Full, Layer::Book));
        }
        let row = AccountRow {
            name,
            basis,
            side,
            slot,
        };
        // The name is not there, so what is refused is want of room.
        self.accounts
            .insert(row, MOST_ACCOUNTS)
            .map_err(|_| Fault::new(Refusal::Full, Layer::Book))?;
        self.counts.clear_slot(slot);
        Ok(())
    }

    // Name, key and contracts stay three parameters, as a line gives them: a struct would be taken apart at once by `within_limits`, which makes the `Dealing`.

    /// Adds contracts to one count; refused 3 (a limit), 5 (account or series absent), 8 (above 100,000).
    pub fn post(
        &mut self,
        name: &[u8],
        key: AskedKey,
        leg: Leg,
        contracts: i64,
    ) -> Result<(), Fault>
        ensures step { Step (view self.old) (Posting name.now key leg contracts) (refusal result) (view self.new) }
    {
        let spot = self.spot(name, key, contracts)?;
        if self.count_at(&spot, leg) + spot.contracts > CEILING {
            return Err(at_both(Refusal::Ceiling, spot.name, key.class));
        }
        self.add_at(&spot, leg);
        Ok(())
    }

    /// Takes as many contracts from both counts of a series; refused 3, 5, 7 (fewer are there).
    pub fn close_out(&mut self, name: &[u8], key: AskedKey, contracts: i64) -> Result<(), Fault>
        ensures step { Step (view self.old) (Closing name.now key contracts) (refusal result) (view self.new) }
    {
        let spot = self.spot(name, key, contracts)?;
        let longs = self.count_at(&spot, Leg::Long);
        let shorts = self.count_at(&spot, Leg::Short);
        if longs.min(shorts) < spot.contracts {
            return Err(at_both(Refusal::NotHeld, spot.name, key.class));
        }
        self.take_at(&spot, Leg::Long);
        self.take_at(&spot, Leg::Short);
        Ok(())
    }

    /// Moves longs or shorts from one account to another; refused 3 (also where both are one account), 5, 7, 8.
    pub fn move_contracts(
        &mut self,
        from: &[u8],
        to: &[u8],
        key: AskedKey,
        leg: Leg,
        contracts: i64,
    ) -> Result<(), Fault>
        ensures step { Step (view self.old) (Moving from.now to.now key leg contracts) (refusal result) (view self.new) }
    {
        let pair = self.pair(from, to, key, contracts)?;
        if self.count_at(&pair.from, leg) < pair.from.contracts {
            return Err(at_both(Refusal::NotHeld, pair.from.name, key.class));
        }
        if self.count_at(&pair.to, leg) + pair.to.contracts > CEILING {
            return Err(at_both(Refusal::Ceiling, pair.to.name, key.class));
        }
        self.take_at(&pair.from, leg);
        self.add_at(&pair.to, leg);
        Ok(())
    }
}
