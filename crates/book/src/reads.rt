//! What is read of a book.
ghost use Rattle.std.specs.Prelude.{◌≡◌, ℕ, ◌<◌, ◌≤◌, length, Some, slice_index};
ghost use Rattle.book.specs.declared.rows.AccountRow.{AccountRow};
ghost use Rattle.book.specs.Reads.{numbered, counts_of};
ghost use Rattle.book.specs.View.{view};

use crate::books::Book;
use crate::counts::place_of;
use crate::rows::AccountRow;
use sheet::sheets::Sheet;
use terms::words::Leg;

impl<'s, 'a> Book<'s, 'a> {
    /// The sheet that the book stands on.
    pub fn sheet(&self) -> Sheet<'s>
        ensures rates { result.rates.by_number ≡ (view self.now).rates }
        ensures classes { result.classes.now ≡ (view self.now).classes }
        ensures series { result.series.now ≡ (view self.now).series }
    {
        self.sheet
    }

    /// How many accounts are open.
    pub fn account_count(&self) -> usize
        ensures value { result ≡ length (view self.now).accounts }
        ensures bound { result ≤ 32 }
    {
        self.accounts.len()
    }

    /// The account that was opened as the k-th, counted from 0.
    pub fn account(&self, k: usize) -> Option<AccountRow>
        ensures value { result ≡ numbered k (view self.now).accounts }
        ensures bound { (a : AccountRow) → result ≡ Some a → a.slot < length (view self.now).accounts }
    {
        self.accounts
            .as_slice()
            .iter()
            .find(|row| row.slot == k)
            .copied()
    }

    /// The counts of one leg of an account, beside the series of the sheet; none where no account has the opening number.
    pub fn counts(&self, slot: usize, leg: Leg) -> &[u32]
        ensures value { result.now ≡ counts_of (view self.now) slot leg }
        ensures all { slot < length (view self.now).accounts → length result.now ≡ length (view self.now).series }
        ensures bound { (j : ℕ) → slice_index result.now j ≤ 100000 }
    {
        if slot >= self.accounts.len() {
            return &[];
        }
        self.counts
            .part(place_of(slot, 0, leg), self.sheet.series_count())
    }
}
