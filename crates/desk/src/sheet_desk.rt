//! The lines before E: they write the sheet.
ghost use Rattle.std.specs.Prelude.{◌≡◌, ◌<◌, OnOk, IfOk, None as Nothing};
ghost use Rattle.terms.specs.Faults.{refusal};
ghost use Rattle.sheet.specs.State.{line_fault, values_fault};
ghost use Rattle.sheet.specs.View.{view};
ghost use Rattle.desk.specs.Halves.{begun, ended};
ghost use Rattle.desk.specs.Desks.{writing};
ghost use Rattle.desk.specs.Runs.{Ran, beginning, with_sheet};
ghost use Rattle.desk.specs.Takings.{Answers, Takes};
ghost use Rattle.lines.specs.Turns.{counted};
ghost use Rattle.desk.specs.declared.due.TheConstants.{LINE_LIMIT};
ghost use Rattle.stream.specs.Readers.{unread};
ghost use Rattle.desk.specs.Listings.{Seals, Valued, Written, waiting, writes};

use crate::due::{at_line, due, ended_early};
use lines::reader::{Reader, Section};
use lines::record::Record;
use sheet::calls::judge_values;
use sheet::drafts::DraftSheet;
use sheet::rows::Listing;
use sheet::sheets::Sheet;
use std::io::Read;
use stream::lines::LineReader;
use stream::reading::Stop;
use terms::faults::Fault;
use terms::words::Currency;

/// A series whose array lines come next, and its array as far as they have come.
#[derive(Clone, Copy)]
struct Pending {
    listing: Listing,
    array: [i64; 16],
}

/// Writes a draft from its lines, until E.
#[derive(Drop)]
pub struct SheetDesk<'a> {
    pub reader: Reader,
    draft: DraftSheet<'a>,
    pending: Option<Pending>,
}

/// An array with its first eight values.
fn begun(array: [i64; 16], values: &[i64; 8]) -> [i64; 16]
    ensures { result ≡ begun array values.now }
{
    let mut array = array;
    array[..8].copy_from_slice(values);
    array
}

/// An array with its second eight values.
fn ended(array: [i64; 16], values: &[i64; 8]) -> [i64; 16]
    ensures { result ≡ ended array values.now }
{
    let mut array = array;
    array[8..].copy_from_slice(values);
    array
}

impl<'a> SheetDesk<'a> {
    /// A desk for a new draft, at the beginning of an input.
    pub fn new(draft: DraftSheet<'a>) -> SheetDesk<'a>
        ensures reader { result.reader ≡ beginning }
        ensures value { writing result ≡ record { draft = view draft.entry; waits = Nothing } }
    {
        SheetDesk {
            reader: Reader::new(),
            draft,
            pending: None,
        }
    }

    /// Takes the lines up to E.
    pub fn read<R: Read>(&mut self, lines: &mut LineReader<R>) -> Result<(), Stop>
        ensures ran { Ran writes with_sheet (unread R.remaining lines.old) self.old.reader (writing self.old) result (unread R.remaining lines.new) self.new.reader (writing self.new) }
    {
        while self.reader.section != Section::Book {
            let Some(line) = lines.next_line()? else {
                return Err(ended_early(&self.reader).into());
            };
            self.take(line)?;
        }
        Ok(())
    }

    /// The sheet of what was written.
    pub fn seal(self) -> Sheet<'a>
        ensures seals { Seals (writing self.entry).draft result }
    {
        self.draft.seal()
    }

    /// Takes one line, or refuses it with its number.
    fn take(&mut self, line: &[u8]) -> Result<(), Fault>
        ensures takes { Takes writes line.now self.old.reader (writing self.old) result self.new.reader (writing self.new) }
        ensures counts { OnOk result (self.new.reader.line ≡ counted self.old.reader.line) }
        ensures limit { OnOk result (self.new.reader.line < LINE_LIMIT) }
    {
        let number = self.reader.next_line();
        self.reader = at_line(self.answer(line), number)?;
        Ok(())
    }

    /// Where the reader stands after a line that is due, and that its call does not refuse.
    fn answer(&mut self, line: &[u8]) -> Result<Reader, Fault>
        ensures answers { Answers writes line.now self.old.reader (writing self.old) result (writing self.new) }
        ensures stays { self.new.reader ≡ self.old.reader }
        ensures counts { IfOk result (λ reader. reader.line ≡ counted self.old.reader.line) }
    {
        let (rec, next) = due(&self.reader, line)?;
        self.write(self.reader.section, rec)?;
        Ok(next)
    }

    /// Judges a series at its own line, and keeps it until its array is whole.
    fn list(&mut self, listing: Listing) -> Result<(), Fault>
        ensures stays { self.new.reader ≡ self.old.reader }
        ensures fault { refusal result ≡ line_fault (view self.old.draft) listing }
        ensures draft { view self.new.draft ≡ view self.old.draft }
        ensures waits { self.new.pending ≡ waiting listing self.old.pending (refusal result) }
    {
        self.draft.judge_series(listing)?;
        self.pending = Some(Pending {
            listing,
            array: [0; 16],
        });
        Ok(())
    }

    /// Takes eight values: the first eight wait for the second, with which the series enters the sheet.
    fn add_values(&mut self, section: Section, values: &[i64; 8]) -> Result<(), Fault>
        ensures stays { self.new.reader ≡ self.old.reader }
        ensures valued { Valued (values_fault values.now) section values.now (view self.old.draft) self.old.pending (refusal result) (view self.new.draft) self.new.pending }
    {
        judge_values(values)?;
        // `step` has refused an array that follows no series.
        let Some(pending) = self.pending else {
            return Ok(());
        };
        match section {
            Section::FirstArray => {
                let array = begun(pending.array, values);
                self.pending = Some(Pending { array, ..pending });
                Ok(())
            }
            _ => {
                self.pending = None;
                self.draft
                    .add_series(pending.listing, ended(pending.array, values))
            }
        }
    }

    /// Takes a record to the one call that it stands for.
    fn write(&mut self, section: Section, rec: Record<'_>) -> Result<(), Fault>
        ensures stays { self.new.reader ≡ self.old.reader }
        ensures written { Written section rec.entry (view self.old.draft) self.old.pending (refusal result) (view self.new.draft) self.new.pending }
    {
        match rec {
            Record::Class {
                code,
                currency,
                spread,
                minimum,
            } => {
                let currency = Currency::try_from(currency)?;
                self.draft.add_class(code, currency, spread, minimum)
            }
            Record::Rate { currency, rate } => {
                let currency = Currency::try_from(currency)?;
                self.draft.add_rate(currency, rate)
            }
            Record::Series {
                key,
                price,
                shares,
                delta,
            } => self.list(Listing {
                key,
                price,
                shares,
                delta,
            }),
            Record::Array { values } => self.add_values(section, &values),
            // E, and what `step` has refused already.
            _ => Ok(()),
        }
    }
}
