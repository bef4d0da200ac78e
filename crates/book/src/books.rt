//! The book: accounts and counts that stand together, on a sealed sheet.
ghost use Rattle.std.specs.Prelude.{ℕ, ◌*◌, ◌<◌, ◌≤◌, IsTrue, length, is_some, slice_index};
ghost use Rattle.std.specs.List.{All};
ghost use Rattle.register.specs.Held.{held};
ghost use Rattle.book.specs.Reads.{numbered};

use crate::counts::Counts;
use crate::rows::AccountRow;
use register::Register;
use sheet::sheets::Sheet;

/// At most 32 accounts, in order of their names, with opening numbers from 0 up to how many they are, each number one account's;
/// their counts within the lent memory, none above 100,000.
#[derive(Drop)]
pub struct Book<'s, 'a> {
    pub(crate) sheet: Sheet<'s>,
    pub(crate) accounts: Register<'a, AccountRow>,
    pub(crate) counts: Counts<'a>,
    ghost few_accounts: { length (held accounts) ≤ 32 },
    ghost accounts_numbered: { All (λ a. a.slot < length (held accounts)) (held accounts) },
    ghost each_number: { (k : ℕ) → k < length (held accounts) → IsTrue (is_some (numbered k (held accounts))) },
    ghost room: { length (held accounts) * 256 ≤ length counts.slots.now },
    ghost bounded: { (k : ℕ) → k < length (held accounts) * 256 → slice_index counts.slots.now k ≤ 100000 },
}
