//! The currency sums of an account.
ghost use Rattle.std.specs.Prelude.{◌≡◌, length, IfOk};
ghost use Rattle.std.specs.Result.{result_map_both};
ghost use Rattle.account.specs.Figures.{Bounded};
ghost use Rattle.account.specs.Sums.{sum_of, currency_sum};
ghost use Rattle.account.specs.Accounts.{sums_on};

use crate::accounts::Account;
use crate::offset::CurrencySums;
use crate::pieces::bounded;
use terms::faults::Fault;
use terms::words::Currency;

/// An account with the figure of each class of its sheet.
#[derive(Clone, Copy)]
pub(crate) struct ClassFigures<'a> {
    pub(crate) account: Account<'a>,
    pub(crate) figures: &'a [i64],
    ghost each: { length figures.now ≡ length account.sheet.classes.now },
    ghost bounded: { Bounded figures.now },
}

impl ClassFigures<'_> {
    /// The class figures of one currency, added up.
    fn sum_in(&self, wanted: Currency) -> i64
        ensures value { result ≡ sum_of wanted self.now.account.sheet.classes.now self.now.figures.now }
    {
        self.account
            .sheet
            .class_rows()
            .iter()
            .zip(self.figures)
            .filter(|(row, _)| row.currency == wanted)
            .map(|(_, figure)| *figure)
            .sum()
    }

    /// The sum of one currency, refused if it is too large.
    fn currency_sum(&self, wanted: Currency) -> Result<i64, Fault>
        ensures answer { result ≡ currency_sum self.now.account.name self.now.account.sheet.classes.now self.now.figures.now wanted }
    {
        let name = self.account.name;
        bounded(self.sum_in(wanted)).map_err(|fault| fault.with_account(name).with_currency(wanted))
    }

    /// The sums of the five currencies with their rates, up to the first refusal.
    pub(crate) fn currency_sums(&self) -> Result<CurrencySums, Fault>
        ensures answer { result_map_both (λ s. s.sums) (λ f. f) result ≡ sums_on self.now.account self.now.figures.now }
        ensures rates { IfOk result (λ s. s.rates ≡ self.now.account.sheet.rates.by_number) }
    {
        let mut sums = [0; 5];
        for currency in Currency::ALL {
            sums[currency.number()] = self.currency_sum(currency)?;
        }
        let rates = self.account.sheet.rates().factors();
        Ok(CurrencySums { sums, rates })
    }
}
