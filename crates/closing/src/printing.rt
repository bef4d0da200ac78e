//! What goes to standard output: the report, or the fault's line alone.
ghost use Rattle.std.specs.Prelude.{◌≡◌, Ok, Err, Some};
ghost use Rattle.std.specs.Fmt.{DisplaysOnOk};
ghost use Rattle.collateral.specs.Requirements.{owes};
ghost use Rattle.lines.specs.Report.{fault_line};
ghost use Rattle.closing.specs.Days.{figures};
ghost use Rattle.closing.specs.Report.{call_lines, owed_lines, printed};

use crate::days::Day;
use collateral::statements::Statement;
use lines::reader::LAST_LINE;
use lines::report::{CallLine, FaultLine, OwedLine};
use sheet::rates::Rates;
use std::fmt;
use terms::faults::Fault;
use terms::words::{Currency, Side};

/// What an account owes, a line for each currency on the sheet.
fn fmt_owed<W: fmt::Write>(
    rates: &Rates,
    statement: &Statement,
    f: &mut fmt::Formatter<W>,
) -> fmt::Result
    ensures { DisplaysOnOk W.write_str_gives f.old result (Some (owed_lines rates.now.by_number (owes statement.now))) f.new }
{
    for currency in Currency::ALL {
        if rates.quotes(currency) {
            let line = OwedLine {
                name: statement.name,
                currency,
                owed: statement.owed[currency.number()],
            };
            write!(f, "{line}")?;
        }
    }
    Ok(())
}

/// What a side has to bring and is called for, a line for each currency on the sheet.
fn fmt_calls<W: fmt::Write>(day: &Day, side: Side, f: &mut fmt::Formatter<W>) -> fmt::Result
    ensures { DisplaysOnOk W.write_str_gives f.old result (Some (call_lines (figures day.now) side)) f.new }
{
    for currency in Currency::ALL {
        if day.rates.quotes(currency) {
            let requirement = day.statements.requirement(side, currency);
            let call = day.ledger.call(side, currency, requirement);
            let line = CallLine {
                side,
                currency,
                requirement,
                call,
            };
            write!(f, "{line}")?;
        }
    }
    Ok(())
}

/// The report: the accounts, then the client side, then the house side.
impl fmt::Display for Day {
    ghost output = { λ day. Some (printed (Ok (figures day))) };

    fn fmt<W: fmt::Write>(&self, f: &mut fmt::Formatter<W>) -> fmt::Result {
        for statement in self.statements.as_slice() {
            fmt_owed(&self.rates, statement, f)?;
        }
        fmt_calls(self, Side::Client, f)?;
        fmt_calls(self, Side::House, f)
    }
}

/// The line of a fault; a fault of the report itself has line 0.
pub fn fault_line(fault: Fault) -> FaultLine
    ensures { fault_line result.line result.refusal ≡ printed (Err fault) }
{
    FaultLine {
        line: fault.place.line.unwrap_or(0).min(LAST_LINE),
        refusal: fault.refusal,
    }
}
