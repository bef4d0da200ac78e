//! What every line goes through on its way to a desk: its form, its turn, and its number.
ghost use Rattle.std.specs.Prelude.{◌≡◌, MatchResult};
ghost use Rattle.desk.specs.Takings.{Due, NotDue, numbered};
ghost use Rattle.desk.specs.Runs.{early};

use lines::reader::Reader;
use lines::record::{Record, read_line};
use terms::faults::Fault;
use terms::words::{Layer, Refusal};

/// The line that no input may have.
pub const LINE_LIMIT: u32 = 1_000_000;

/// The record of a line, and where the reader stands behind it; refused 1 where the line is no record's form, 2 where it is not due.
pub(crate) fn due<'a>(reader: &Reader, line: &'a [u8]) -> Result<(Record<'a>, Reader), Fault>
    ensures due { MatchResult result (λ p. Due line.now reader.now p.0 p.1) (λ fault. NotDue line.now reader.now fault) }
{
    let rec = read_line(line).ok_or(Fault::new(Refusal::BadLine, Layer::Line))?;
    let mut next = *reader;
    next.step(rec)?;
    Ok((rec, next))
}

/// The answer at its line: a fault takes the line's number, and line 1,000,000 is refused unless an earlier row decides.
pub(crate) fn at_line(answer: Result<Reader, Fault>, number: u32) -> Result<Reader, Fault>
    ensures { result ≡ numbered number answer }
{
    let full = Fault::new(Refusal::Full, Layer::Line);
    match answer {
        Ok(reader) if number < LINE_LIMIT => Ok(reader),
        Err(fault) if number < LINE_LIMIT || fault.refusal < Refusal::Full => {
            Err(fault.with_line(number))
        }
        _ => Err(full.with_line(number)),
    }
}

/// The fault of an input that ends before E: 2, at the line that would come next.
pub(crate) fn ended_early(reader: &Reader) -> Fault
    ensures { result ≡ early reader.now }
{
    Fault::new(Refusal::Turn, Layer::Line).with_line(reader.next_line())
}
