//! The turn of each kind of line: the sheet first, each series followed by its two arrays, then the book.
ghost use Rattle.std.specs.Prelude.{◌≡◌, ◌+◌, IfErr, Some as Just, None as Nothing, MatchResult};
ghost use Rattle.lines.specs.Turns.{counted, turn};
ghost use Rattle.lines.specs.declared.reader.Section.TheVariants.{Sheet};
ghost use Rattle.terms.specs.Faults.{refused};
ghost use Rattle.terms.specs.declared.words.Layer.TheVariants.{Line as OfLine};
ghost use Rattle.terms.specs.declared.words.Refusal.TheVariants.{Turn as OutOfTurn};

use crate::record::Record;
use terms::faults::Fault;
use terms::words::{Layer, Refusal};

/// The highest line number that a report shows.
pub const LAST_LINE: u32 = 9_999_999;

/// What is due: a line of the sheet, a series' first or second array, or a line of the book.
#[derive(Clone, Copy, PartialEq, Eq, Debug, Default)]
pub enum Section {
    #[default]
    Sheet,
    FirstArray,
    SecondArray,
    Book,
}

/// Where a reader stands, and how many lines it took.
#[derive(Clone, Copy, PartialEq, Eq, Debug, Default)]
pub struct Reader {
    pub section: Section,
    pub line: u32,
}

impl Reader {
    pub fn new() -> Reader
        ensures section { result.section ≡ Sheet }
        ensures line { result.line ≡ 0 }
    {
        Reader::default()
    }

    /// The number of the line that comes next; past the last that a report shows it stays.
    pub fn next_line(&self) -> u32
        ensures { result ≡ counted self.now.line }
    {
        self.line.saturating_add(1).min(LAST_LINE)
    }

    /// Takes a line and goes on to the section that it leads to, or refuses its turn.
    pub fn step(&mut self, rec: Record<'_>) -> Result<(), Fault>
        ensures moves { MatchResult result (λ _. turn self.old.section rec.entry ≡ Just self.new.section) (λ _. turn self.old.section rec.entry ≡ Nothing) }
        ensures counts { MatchResult result (λ _. self.new.line ≡ counted self.old.line) (λ _. self.new ≡ self.old) }
        ensures refuses { IfErr result (λ f. f ≡ refused OutOfTurn OfLine) }
    {
        let next = match (self.section, rec) {
            (Section::Sheet, Record::Class { .. } | Record::Rate { .. }) => Section::Sheet,
            (Section::Sheet, Record::Series { .. }) => Section::FirstArray,
            (Section::FirstArray, Record::Array { .. }) => Section::SecondArray,
            (Section::SecondArray, Record::Array { .. }) => Section::Sheet,
            (Section::Sheet, Record::End) => Section::Book,
            (Section::Book, Record::Account { .. } | Record::Post { .. }) => Section::Book,
            (Section::Book, Record::CloseOut { .. } | Record::Move { .. }) => Section::Book,
            (Section::Book, Record::Deposit { .. }) => Section::Book,
            _ => return Err(Fault::new(Refusal::Turn, Layer::Line)),
        };
        self.line = self.next_line();
        self.section = next;
        Ok(())
    }
}
