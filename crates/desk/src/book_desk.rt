//! The lines after E: they deal on the book and bring collateral.
ghost use Rattle.std.specs.Prelude.{◌≡◌, ◌<◌, OnOk, IfOk};
ghost use Rattle.lines.specs.Turns.{counted};
ghost use Rattle.stream.specs.Readers.{unread};
ghost use Rattle.desk.specs.Runs.{Ran, with_input};
ghost use Rattle.desk.specs.Takings.{Answers, Takes};
ghost use Rattle.desk.specs.declared.due.TheConstants.{LINE_LIMIT};
ghost use Rattle.terms.specs.Faults.{refusal};
ghost use Rattle.book.specs.View.{view};
ghost use Rattle.desk.specs.Dealings.{Dealt, deals};
ghost use Rattle.desk.specs.Desks.{dealing};

use crate::due::{at_line, due};
use book::books::Book;
use collateral::ledger::Ledger;
use lines::reader::Reader;
use lines::record::Record;
use std::io::Read;
use stream::lines::LineReader;
use stream::reading::Stop;
use terms::faults::Fault;
use terms::words::Currency;

/// Deals on a book and its collateral from their lines.
#[derive(Drop)]
pub struct BookDesk<'s, 'a> {
    pub reader: Reader,
    pub book: Book<'s, 'a>,
    pub ledger: Ledger,
}

impl<'s, 'a> BookDesk<'s, 'a> {
    /// Takes the lines up to the end of the input.
    pub fn read<R: Read>(&mut self, lines: &mut LineReader<R>) -> Result<(), Stop>
        ensures ran { Ran deals with_input (unread R.remaining lines.old) self.old.reader (dealing self.old) result (unread R.remaining lines.new) self.new.reader (dealing self.new) }
    {
        while let Some(line) = lines.next_line()? {
            self.take(line)?;
        }
        Ok(())
    }

    /// Takes one line, or refuses it with its number.
    fn take(&mut self, line: &[u8]) -> Result<(), Fault>
        ensures takes { Takes deals line.now self.old.reader (dealing self.old) result self.new.reader (dealing self.new) }
        ensures counts { OnOk result (self.new.reader.line ≡ counted self.old.reader.line) }
        ensures limit { OnOk result (self.new.reader.line < LINE_LIMIT) }
    {
        let number = self.reader.next_line();
        self.reader = at_line(self.answer(line), number)?;
        Ok(())
    }

    /// Where the reader stands after a line that is due, and that its call does not refuse.
    fn answer(&mut self, line: &[u8]) -> Result<Reader, Fault>
        ensures answers { Answers deals line.now self.old.reader (dealing self.old) result (dealing self.new) }
        ensures stays { self.new.reader ≡ self.old.reader }
        ensures counts { IfOk result (λ reader. reader.line ≡ counted self.old.reader.line) }
    {
        let (rec, next) = due(&self.reader, line)?;
        self.deal(rec)?;
        Ok(next)
    }

    /// Takes a record to the one call that it stands for.
    fn deal(&mut self, rec: Record<'_>) -> Result<(), Fault>
        ensures dealt { Dealt rec.entry (view self.old.book) self.old.ledger.rates.by_number self.old.ledger.records (refusal result) (view self.new.book) self.new.ledger.records }
        ensures kept { self.new.ledger.rates ≡ self.old.ledger.rates }
        ensures stays { self.new.reader ≡ self.old.reader }
    {
        match rec {
            Record::Account { name, basis, side } => self.book.open(name, basis, side),
            Record::Post {
                name,
                key,
                leg,
                contracts,
            } => self.book.post(name, key, leg, contracts),
            Record::CloseOut {
                name,
                key,
                contracts,
            } => self.book.close_out(name, key, contracts),
            Record::Move {
                from,
                to,
                key,
                leg,
                contracts,
            } => self.book.move_contracts(from, to, key, leg, contracts),
            Record::Deposit {
                side,
                currency,
                cents,
            } => {
                let currency = Currency::try_from(currency)?;
                self.ledger.deposit(side, currency, cents)
            }
            // E, and what `step` has refused already.
            _ => Ok(()),
        }
    }
}
