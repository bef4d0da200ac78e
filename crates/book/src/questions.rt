//! Questions that are put to a book, as it is or in a trial.
ghost use Rattle.std.specs.Prelude.{◌≡◌, None};
ghost use Rattle.terms.specs.Faults.{refusal};
ghost use Rattle.account.specs.Outcomes.{filled, left_in};
ghost use Rattle.book.specs.Pool.{pool};
ghost use Rattle.book.specs.Reports.{named_report};
ghost use Rattle.book.specs.Trials.{both, report_with};
ghost use Rattle.book.specs.Uses.{Posting};
ghost use Rattle.book.specs.View.{view};

use crate::books::Book;
use crate::pooling::PoolFigures;
use crate::trials::Asking;
use account::rule::AccountReport;
use charge::charges::Charge;
use terms::faults::Fault;
use terms::keys::AskedKey;
use terms::words::{Leg, Side};

/// Asks for the report of the account that a text names.
#[derive(Drop)]
pub struct ReportOf<'q, C: Charge> {
    pub charge: &'q C,
    pub name: &'q [u8],
    pub report: AccountReport,
}

impl<C: Charge> Asking for ReportOf<'_, C> {
    ghost question = { record {
      refused = λ a s. refusal (named_report (C.Charge.meaning a.charge.now) s a.name.now);
      told = λ a s. record { charge = a.charge; name = a.name; report = left_in (named_report (C.Charge.meaning a.charge.now) s a.name.now) a.report };
    } };

    fn ask(&mut self, book: &Book<'_, '_>) -> Result<(), Fault> {
        book.report(self.charge, self.name, &mut self.report)
    }
}

/// Asks for the pool of one side's accounts, or of all.
#[derive(Drop)]
pub struct PoolOf<'q, C: Charge> {
    pub charge: &'q C,
    pub side: Option<Side>,
    pub figures: PoolFigures,
}

impl<C: Charge> Asking for PoolOf<'_, C> {
    ghost question = { record {
      refused = λ a s. refusal (pool (C.Charge.meaning a.charge.now) s a.side);
      told = λ a s. record { charge = a.charge; side = a.side; figures = left_in (pool (C.Charge.meaning a.charge.now) s a.side) a.figures };
    } };

    fn ask(&mut self, book: &Book<'_, '_>) -> Result<(), Fault> {
        self.figures = book.pool(self.charge, self.side)?;
        Ok(())
    }
}

/// Asks two questions, one after the other; where the first is refused, the second is not put.
impl<A: Asking, B: Asking> Asking for (A, B) {
    ghost question = { both A.Asking.question B.Asking.question };

    fn ask(&mut self, book: &Book<'_, '_>) -> Result<(), Fault> {
        self.0.ask(book)?;
        self.1.ask(book)
    }
}

/// A question with its refusal kept beside it, so that a trial answers by the posting's fault alone.
#[derive(Drop)]
pub struct Kept<A> {
    pub asking: A,
    pub refusal: Option<Fault>,
}

impl<A: Asking> Asking for Kept<A> {
    ghost question = { record {
      refused = λ a s. None;
      told = λ a s. record { asking = A.Asking.question.told a.asking s; refusal = A.Asking.question.refused a.asking s };
    } };

    fn ask(&mut self, book: &Book<'_, '_>) -> Result<(), Fault> {
        self.refusal = self.asking.ask(book).err();
        Ok(())
    }
}

impl Book<'_, '_> {
    /// The report of an account with contracts posted to it, in a place of the caller's; the book is left as it was.
    pub fn report_with<C: Charge>(
        &mut self,
        charge: &C,
        name: &[u8],
        key: AskedKey,
        leg: Leg,
        contracts: i64,
        report: &mut AccountReport,
    ) -> Result<(), Fault>
        ensures answer { filled result report.new ≡ report_with (C.Charge.meaning charge.now) (view self.old) (Posting name.now key leg contracts) name.now }
        ensures after { report.new ≡ left_in (report_with (C.Charge.meaning charge.now) (view self.old) (Posting name.now key leg contracts) name.now) report.old }
        ensures book { view self.new ≡ view self.old }
    {
        let mut asking = ReportOf {
            charge,
            name,
            report: *report,
        };
        let answer = self.trial(name, key, leg, contracts, &mut asking);
        *report = asking.report;
        answer
    }
}
