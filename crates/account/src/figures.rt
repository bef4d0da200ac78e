//! The class figures of an account.
ghost use Rattle.std.specs.Prelude.{◌≡◌, ◌<◌, ◌≤◌, length, IfOk, OnOk, unsigned_abs};
ghost use Rattle.account.specs.Outcomes.{filled};
ghost use Rattle.account.specs.Pieces.{Small};
ghost use Rattle.account.specs.Figures.{Bounded};
ghost use Rattle.account.specs.Accounts.{figure_on, figures_on};

use crate::accounts::Account;
use crate::positions::position_figure;
use charge::charges::Charge;
use charge::positions::Position;
use terms::faults::Fault;

/// An account with a margined count for each series of its sheet, at most 3,200,000 in size.
#[derive(Clone, Copy)]
pub(crate) struct MarginedCounts<'a> {
    pub(crate) account: Account<'a>,
    pub(crate) counts: &'a [i64],
    ghost each: { length counts.now ≡ length account.sheet.series.now },
    ghost small: { Small counts.now },
}

impl MarginedCounts<'_> {
    /// The figure of the class at a place of the sheet.
    fn figure_at<C: Charge>(&self, charge: &C, i: usize) -> Result<i64, Fault>
        requires { i < length self.now.account.sheet.classes.now }
        ensures bound { IfOk result (λ z. unsigned_abs z ≤ 12900000000000) }
        ensures answer { result ≡ figure_on (C.Charge.meaning charge.now) self.now.account self.now.counts.now i }
    {
        let account = self.account;
        let code = account.sheet.class_row(i).code;
        let class = account.sheet.class(i);
        let span = account.sheet.span(i);
        let position = Position {
            class: &class,
            counts: &self.counts[span.from..span.to],
        };
        position_figure(charge, &position, account.basis).map_err(|fault| fault
            .with_account(account.name)
            .with_class(code))
    }

    /// Fills the class figures, class by class, up to the first refusal.
    pub(crate) fn class_figures<C: Charge>(
        &self,
        charge: &C,
        figures: &mut [i64],
    ) -> Result<(), Fault>
        requires { length figures.old ≡ length self.now.account.sheet.classes.now }
        ensures bounded { OnOk result (Bounded figures.new) }
        ensures answer { filled result figures.new ≡ figures_on (C.Charge.meaning charge.now) self.now.account self.now.counts.now }
    {
        for (i, figure) in figures.iter_mut().enumerate() {
            *figure = self.figure_at(charge, i)?;
        }
        Ok(())
    }
}
