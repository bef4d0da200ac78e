//! The rule for one account: counts, class figures, currency sums, and the offset.
ghost use Rattle.std.specs.Prelude.{◌≡◌, ◌≤◌, length, Ok, IfOk, OnOk};
ghost use Rattle.std.specs.Result.{result_map_both};
ghost use Rattle.account.specs.Outcomes.{filled, left_in};
ghost use Rattle.account.specs.Offset.{Law, Owable};
ghost use Rattle.account.specs.Rule.{blank_report, tally};
ghost use Rattle.account.specs.Accounts.{tally_on, report_on};

use crate::accounts::Account;
use crate::figures::MarginedCounts;
use crate::offset::{CurrencySums, Offset};
use crate::pieces::margin_counts;
use crate::sums::ClassFigures;
use charge::charges::Charge;
use sheet::limits::{MOST_CLASSES, MOST_SERIES};
use terms::faults::Fault;

/// What an account's margin comes to. Class figures stand in the order of the sheet's classes, 0 past the last;
/// sums and what is owed in the order of the currencies.
// A bound of what is owed as a ghost field, as `Offset` has, was tried: `report_of` is then "missing field(s) of `AccountReport`", as mere figures have no bound.
#[derive(Clone, Copy)]
pub struct AccountReport {
    pub class_figures: [i64; MOST_CLASSES],
    pub sums: [i64; 5],
    pub value: i64,
    pub owed: [u64; 5],
    pub requirement: u64,
}

/// A place to be filled.
// By hand: a derived default is the blank report too, but no clause says so of it.
impl Default for AccountReport {
    ghost is_default = { λ r. r ≡ blank_report };

    fn default() -> AccountReport {
        AccountReport {
            class_figures: [0; MOST_CLASSES],
            sums: [0; 5],
            value: 0,
            owed: [0; 5],
            requirement: 0,
        }
    }
}

/// The currency sums of an account; its class figures are filled in, in a place as long as the sheet's classes.
fn tally<C: Charge>(
    charge: &C,
    account: &Account,
    figures: &mut [i64],
) -> Result<CurrencySums, Fault>
    requires { length figures.old ≡ length account.now.sheet.classes.now }
    ensures answer { result_map_both (λ s. tally figures.new s.sums) (λ f. f) result ≡ tally_on (C.Charge.meaning charge.now) account.now }
    ensures rates { IfOk result (λ s. s.rates ≡ account.now.sheet.rates.by_number) }
{
    let mut counts = [0; MOST_SERIES]; // as many as may be, cut to those that are: no heap is taken
    let counts = &mut counts[..account.longs.len()];
    margin_counts(account.basis, account.longs, account.shorts, counts);
    let margined = MarginedCounts {
        account: *account,
        counts,
    };
    margined.class_figures(charge, figures)?;
    let figured = ClassFigures {
        account: *account,
        figures,
    };
    figured.currency_sums()
}

/// Margins one account and fills its report; a refusal leaves the report as it was.
// It fills a place of the caller's: what stands there after a refusal is promised (the clause `after`).
pub fn margin_account<C: Charge>(
    charge: &C,
    account: &Account,
    report: &mut AccountReport,
) -> Result<(), Fault>
    ensures answer { filled result report.new ≡ report_on (C.Charge.meaning charge.now) account.now }
    ensures after { report.new ≡ left_in (report_on (C.Charge.meaning charge.now) account.now) report.old }
    ensures law { OnOk result (Law report.new.sums account.now.sheet.rates.by_number report.new.owed report.new.requirement) }
    ensures owed { OnOk result (Owable report.new.owed) }
    ensures bound { OnOk result (report.new.requirement ≤ 100000000000000000) }
{
    let classes = account.sheet.class_count();
    let mut class_figures = [0; MOST_CLASSES]; // cut to the classes that are, as the counts in `tally`
    let totals = tally(charge, account, &mut class_figures[..classes])?;
    let sums = totals.sums;
    let Offset { owed, requirement } = totals.offset();
    *report = AccountReport {
        class_figures,
        sums,
        value: totals.value(),
        owed,
        requirement,
    };
    Ok(())
}
