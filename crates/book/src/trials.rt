//! The trial of a posting: a question is put to the book as it would be, and the count is put back.
ghost use Rattle.std.specs.Prelude.{◌≡◌, ◌*◌, ◌<◌, ◌≤◌, length, slice_set};
ghost use Rattle.terms.specs.Faults.{refusal};
ghost use Rattle.book.specs.State.{at_counts};
ghost use Rattle.book.specs.Trials.{Question, Trial};
ghost use Rattle.book.specs.Uses.{Posting};
ghost use Rattle.book.specs.View.{view};

use crate::books::Book;
use crate::calls::at_both;
use crate::limits::CEILING;
use terms::faults::Fault;
use terms::keys::AskedKey;
use terms::words::{Leg, Refusal};

/// What is asked of a book.
pub trait Asking {
    /// When it is refused, and what the asker holds afterwards.
    ghost question: { Question Self };

    fn ask(&mut self, book: &Book<'_, '_>) -> Result<(), Fault>
        ensures fault { refusal result ≡ question.refused self.old (view book.now) }
        ensures held { self.new ≡ question.told self.old (view book.now) };
}

/// Puts a count back where it is let go.
struct Guard<'b, 's, 'a> {
    book: &'b mut Book<'s, 'a>,
    place: usize,
    old: u32,
}

impl Drop for Guard<'_, '_, '_> {
    fn drop(self)
        requires open { self.place < length (view self.book.now).accounts * 256 }
        requires few { self.old ≤ 100000 }
        ensures after { view self.exit.0.now ≡ at_counts (view self.entry.book.now) (slice_set (view self.entry.book.now).counts self.entry.place self.entry.old) }
    {
        let Guard { book, place, old } = self;
        book.counts.slots[place] = old;
    }
}

impl Book<'_, '_> {
    /// Asks about the book as it would be with the contracts posted, and leaves it as it was; refused as `post` is, and else as the question is.
    pub fn trial<A: Asking>(
        &mut self,
        name: &[u8],
        key: AskedKey,
        leg: Leg,
        contracts: i64,
        asking: &mut A,
    ) -> Result<(), Fault>
        ensures trial { Trial A.Asking.question (view self.old) (Posting name.now key leg contracts) asking.old (refusal result) asking.new (view self.new) }
    {
        let spot = self.spot(name, key, contracts)?;
        let old = self.count_at(&spot, leg);
        if old + spot.contracts > CEILING {
            return Err(at_both(Refusal::Ceiling, spot.name, key.class));
        }
        let place = spot.place(leg);
        self.add_at(&spot, leg);
        let guard = Guard {
            book: &mut *self,
            place,
            old,
        };
        asking.ask(&*guard.book)?;
        Ok(())
    }
}
