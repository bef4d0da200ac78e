//! The counts of all accounts, in lent memory: the longs of the account that was opened first, its shorts, then those of the next.
//! Only the book calls in here, and what is required it knows of its own accounts.
ghost use Rattle.std.specs.Prelude.{◌≡◌, ◌+◌, ◌*◌, ◌<◌, ◌≤◌, length, take, drop};
ghost use Rattle.book.specs.State.{cell, cleared};

use terms::words::Leg;

/// How many counts an account has.
pub const STRIDE: usize = 256;

/// How many of them are of one leg.
pub const LEG_STRIDE: usize = 128;

/// One lent slice with places, since the book takes no memory of its own.
#[derive(Drop)]
pub struct Counts<'a> {
    pub(crate) slots: &'a mut [u32],
}

/// Where a count stands.
pub(crate) fn place_of(slot: usize, series: usize, leg: Leg) -> usize
    requires slot { slot < 32 }
    requires series { series < 128 }
    ensures value { result ≡ cell slot series leg }
    ensures low { slot * 256 ≤ result }
    ensures high { result < slot * 256 + 256 }
{
    slot * STRIDE + leg.number() * LEG_STRIDE + series
}

impl Counts<'_> {
    /// How many counts the lent memory holds.
    pub(crate) fn len(&self) -> usize
        ensures value { result ≡ length self.now.slots.now }
    {
        self.slots.len()
    }

    /// Sets all counts of an account to 0.
    pub(crate) fn clear_slot(&mut self, slot: usize)
        requires slot { slot < 32 }
        requires room { slot * 256 + 256 ≤ length self.old.slots.now }
        ensures after { self.new.slots.now ≡ cleared self.old.slots.now slot }
    {
        let base = slot * STRIDE;
        self.slots[base..base + STRIDE].fill(0);
    }

    /// Counts that stand together.
    pub(crate) fn part(&self, from: usize, count: usize) -> &[u32]
        requires room { from + count ≤ length self.now.slots.now }
        ensures value { result.now ≡ take count (drop from self.now.slots.now) }
    {
        &self.slots[from..from + count]
    }
}
