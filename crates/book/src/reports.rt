//! What an account of a book comes to, by a charge.
ghost use Rattle.std.specs.Prelude.{◌≡◌, ◌<◌, ◌≤◌, length, IfOk, IfSome, OnOk};
ghost use Rattle.charge.specs.Meanings.{Meaning};
ghost use Rattle.account.specs.Outcomes.{filled, left_in};
ghost use Rattle.account.specs.Offset.{Law, Owable};
ghost use Rattle.account.specs.Accounts.{report_on};
ghost use Rattle.book.specs.Events.{Asked, Happens, Report};
ghost use Rattle.book.specs.Reports.{OwnAlone, named_report, nth_report, row_report};
ghost use Rattle.book.specs.View.{view};

use crate::books::Book;
use crate::rows::AccountRow;
use crate::spots::unknown;
use account::accounts::Account;
use account::rule::{AccountReport, margin_account};
use charge::charges::Charge;
use terms::faults::Fault;
use terms::names::Name;
use terms::words::Leg;

impl Book<'_, '_> {
    /// The report of the account that a text names, in a place of the caller's; refused 3 (no name), 5 (absent), 9 (a figure is too large).
    pub fn report<C: Charge>(
        &self,
        charge: &C,
        name: &[u8],
        report: &mut AccountReport,
    ) -> Result<(), Fault>
        ensures answer { filled result report.new ≡ named_report (C.Charge.meaning charge.now) (view self.now) name.now }
        ensures after { report.new ≡ left_in (named_report (C.Charge.meaning charge.now) (view self.now) name.now) report.old }
        ensures step { Happens (view self.now) (Asked (Report (C.Charge.meaning charge.now) name.now (filled result report.new))) (view self.now) }
        ensures law { OnOk result (Law report.new.sums (view self.now).rates report.new.owed report.new.requirement) }
    {
        let name = Name::try_from(name)?;
        let Some(row) = self.row_of(&name) else {
            return Err(unknown(Some(name), None));
        };
        margin_account(charge, &self.account_of(row), report)
    }

    /// The report of the account that was opened as the k-th; none where fewer accounts are open.
    #[tactic(auto, using(crate::proofs::Owns::own_alone))]
    pub fn nth_report<C: Charge>(
        &self,
        charge: &C,
        k: usize,
    ) -> Option<Result<AccountReport, Fault>>
        ensures answer { result ≡ nth_report (C.Charge.meaning charge.now) (view self.now) k }
        ensures own { OwnAlone }
        ensures law { IfSome result (λ answer. IfOk answer (λ r. Law r.sums (view self.now).rates r.owed r.requirement)) }
        ensures owed { IfSome result (λ answer. IfOk answer (λ r. Owable r.owed)) }
        ensures bound { IfSome result (λ answer. IfOk answer (λ r. r.requirement ≤ 100000000000000000)) }
    {
        let row = self.account(k)?;
        let mut report = AccountReport::default();
        let answer = margin_account(charge, &self.account_of(row), &mut report);
        Some(answer.map(|_| report))
    }

    /// The account of a row, with its counts, as it is margined.
    pub(crate) fn account_of(&self, row: AccountRow) -> Account<'_>
        requires { row.slot < length (view self.now).accounts }
        ensures report { (m : Meaning) → report_on m result ≡ row_report m (view self.now) row }
        ensures rates { result.sheet.rates.by_number ≡ (view self.now).rates }
    {
        Account {
            sheet: self.sheet,
            name: row.name,
            basis: row.basis,
            longs: self.counts(row.slot, Leg::Long),
            shorts: self.counts(row.slot, Leg::Short),
        }
    }
}
