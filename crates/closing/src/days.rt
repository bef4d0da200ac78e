//! A day: the sheet's lines, the book's lines, the close.
ghost use Rattle.closing.specs.Days.{FaultOfLine, MarginedInput, OneOutcome};

use crate::memory::{ACCOUNT, CLASS, SERIES};
use book::books::Book;
use book::calls::MOST_ACCOUNTS;
use book::counts::STRIDE;
use charge::composites::prime;
use collateral::ledger::Ledger;
use collateral::statements::Statements;
use desk::book_desk::BookDesk;
use desk::sheet_desk::SheetDesk;
use desk::statements::draw_up;
use sheet::drafts::DraftSheet;
use sheet::limits::{MOST_CLASSES, MOST_SERIES};
use sheet::rates::Rates;
use std::io::Read;
use stream::lines::LineReader;
use stream::reading::Stop;

/// Every figure of a report: the rates tell which currencies are on the sheet.
#[derive(Drop)]
pub struct Day {
    pub rates: Rates,
    pub statements: Statements,
    pub ledger: Ledger,
}

/// Reads an input to its end and margins its book by PRiME's charge.
pub fn margin_day<R: Read + Drop>(input: R) -> Result<Day, Stop>
    ensures margined { MarginedInput (R.remaining input) result }
    ensures one_outcome { OneOutcome }
    ensures fault_of_line { FaultOfLine }
{
    let mut classes = [CLASS; MOST_CLASSES];
    let mut series = [SERIES; MOST_SERIES];
    let mut accounts = [ACCOUNT; MOST_ACCOUNTS];
    let mut counts = [0u32; MOST_ACCOUNTS * STRIDE];
    let mut lines = LineReader::new(input);
    let draft = DraftSheet::new(&mut classes, &mut series);
    let mut desk = SheetDesk::new(draft);
    desk.read(&mut lines)?;
    let reader = desk.reader;
    let sheet = desk.seal();
    let mut desk = BookDesk {
        reader,
        book: Book::new(sheet, &mut accounts, &mut counts),
        ledger: Ledger::new(&sheet),
    };
    desk.read(&mut lines)?;
    Ok(Day {
        rates: sheet.rates(),
        statements: draw_up(&prime(), &desk.book)?,
        ledger: desk.ledger,
    })
}
