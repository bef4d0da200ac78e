//! The lines of an input, one after the other.
ghost use Rattle.std.specs.Prelude.{◌≡◌, ◌<◌, ◌≤◌, ◌+◌, ◌-◌, ◌++◌, ℕ, List, length, take, [], IfOk, IfErr, IfSome, IfNone, MatchOption};
ghost use Rattle.std.specs.Borrow.{sem};
ghost use Rattle.std.specs.Io.BufRead.{Rests};
ghost use Rattle.std.specs.Io.KnownBytes.{Keeps, IsAtEnd};
ghost use Rattle.stream.specs.Lines.{first_line};
ghost use Rattle.stream.specs.declared.lines.TheConstants.{ROOM};
ghost use Rattle.stream.specs.declared.reading.Stop.TheVariants.{Unread as UnreadInput};

use crate::reading::Stop;
use memchr::memchr;
use std::io::Read;

/// The most bytes before a line feed that any record's form has: an R line.
pub const LONGEST: usize = 81;

/// Room for the longest line's beginning and one read of 64 KiB.
const ROOM: usize = 65_618;

/// An input, and what was read of it and not yet handed on: `bytes[from..to]`.
// An array with its places, as std's own window on standard input: an `ArrayVec` lends only what it holds, so nothing can be read into it but by a second array and a copy.
#[derive(Drop)]
pub struct LineReader<R> {
    input: R,
    bytes: [u8; ROOM],
    from: usize,
    to: usize,
    ghost ordered: { from ≤ to },
    ghost within: { to ≤ ROOM },
}

impl<R: Read> LineReader<R> {
    ghost use Rattle.stream.specs.Readers.{held, unread, Hands, Leaves};
    ghost use Rattle.stream.specs.contracts.lines.LineReader.{the_row};

    pub fn new(input: R) -> LineReader<R>
        ensures { unread R.remaining result ≡ R.remaining input }
    {
        LineReader {
            input,
            bytes: [0; ROOM],
            from: 0,
            to: 0,
        }
    }

    /// The next line with its line feed, or none at the end of the input. A line longer than any form comes cut at 82 bytes, and the last one may lack its line feed: neither has a form.
    pub fn next_line(&mut self) -> Result<Option<&[u8]>, Stop>
        ensures line { Hands (unread R.remaining self.old) result }
        ensures failed { IfErr result (λ stop. stop ≡ UnreadInput) }
        ensures* rest { sem 𝓛 (Rests (the_row R.row) self.entry (λ reader. Leaves (unread R.remaining self.old) (unread R.remaining reader) result)) }
    {
        let Some(size) = self.next_size()? else {
            return Ok(None);
        };
        let from = self.from;
        self.from = from + size;
        let bytes = &self.bytes;
        Ok(Some(&bytes[from..from + size]))
    }

    /// Reads on until the size of the next line is seen; none at the end of the input.
    fn next_size(&mut self) -> Result<Option<usize>, Stop>
        ensures within { IfOk result (λ size. IfSome size (λ n. self.new.from + n ≤ self.new.to)) }
        ensures some { IfOk result (λ size. IfSome size (λ n. 0 < n)) }
        ensures failed { IfErr result (λ stop. stop ≡ UnreadInput) }
        ensures keeps { Keeps (unread R.remaining self.old) (unread R.remaining self.new) }
        ensures first { IfSome (unread R.remaining self.old) (λ xs. IfOk result (λ size. MatchOption size (xs ≡ []) (λ n. first_line xs ≡ take n (held self.new)))) }
    {
        loop {
            if let Some(size) = line_size(&self.bytes[self.from..self.to]) {
                return Ok(Some(size));
            }
            if self.refill()? == 0 {
                let size = self.to - self.from;
                return Ok((size > 0).then_some(size));
            }
        }
    }

    /// Reads more behind what is held, which is less than a line: how many bytes, 0 at the end of the input.
    fn refill(&mut self) -> Result<usize, Stop>
        ensures grows { IfOk result (λ n. self.new.to + self.old.from ≡ self.new.from + self.old.to + n) }
        ensures failed { IfErr result (λ stop. stop ≡ UnreadInput) }
        ensures keeps { Keeps (unread R.remaining self.old) (unread R.remaining self.new) }
        ensures end { self.old.to - self.old.from < ROOM → IfOk result (λ n. n ≡ 0 → IsAtEnd (R.remaining self.new.input)) }
    {
        self.bytes.copy_within(self.from..self.to, 0);
        self.to -= self.from;
        self.from = 0;
        let n = self
            .input
            .read(&mut self.bytes[self.to..])
            .map_err(|_| Stop::Unread)?;
        self.to += n;
        Ok(n)
    }
}

/// How many bytes the first line has, where that is seen already: up to its line feed, and at most 82.
fn line_size(held: &[u8]) -> Option<usize>
    ensures within { IfSome result (λ n. n ≤ length held.now) }
    ensures some { IfSome result (λ n. 0 < n) }
    ensures short { IfNone result (length held.now ≤ LONGEST) }
    ensures seen { IfSome result (λ n. (more : List ℕ) → first_line (held.now ++ more) ≡ take n held.now) }
    ensures unseen { IfNone result (first_line held.now ≡ held.now) }
{
    let front = &held[..held.len().min(LONGEST + 1)];
    match memchr(b'\n', front) {
        Some(at) => Some(at + 1),
        None if held.len() > LONGEST => Some(LONGEST + 1),
        None => None,
    }
}
