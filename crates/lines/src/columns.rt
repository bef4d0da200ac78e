//! The columns of a line: a blank and a field cut off the front, and the number that stands at the right of a field.
ghost use Rattle.std.specs.Prelude.{◌≡◌, ℕ, ◌^◌, ◌<◌, ◌≤◌, ◌==◌, [], ◌∷◌, length, decimal, MatchOption, ◌≢◌};
ghost use Rattle.std.specs.List.{prefix_len};
ghost use Rattle.lines.specs.Columns.{Exactly, Fits, FitsOrBlank, Within, column, column_or_blank};
ghost use Rattle.lines.specs.Fields.{Alien, Cut, Front, number_field, number_or_blank_field, plain_field};
ghost use Rattle.std.specs.Fmt.{signed_decimal};

/// A blank and a field of a width, and what follows.
pub(crate) fn field_at(s: &[u8], width: usize) -> Option<(&[u8], &[u8])>
    ensures { MatchOption result (Alien (plain_field width) s.now) (λ p. Front (plain_field width) s.now p.0.now p.1.now) }
{
    s.strip_prefix(b" ")?.split_at_checked(width)
}

/// The end of a line: its line feed, and nothing behind it.
pub(crate) fn ended(s: &[u8]) -> Option<()>
    ensures { MatchOption result (s.now ≢ 10 ∷ []) (λ _. s.now ≡ 10 ∷ []) }
{
    (s == b"\n".as_slice()).then_some(())
}

/// The bytes that a number may stand in, few enough that no number of their digits overflows.
#[derive(Clone, Copy)]
struct Field<'a> {
    bytes: &'a [u8],
    ghost narrow: { length bytes.now ≤ 13 },
}

impl Field<'_> {
    /// How many blanks it begins with.
    fn blanks(self) -> usize
        ensures value { result ≡ prefix_len (λ b. b == 32) self.entry.bytes.now }
        ensures bound { result ≤ length self.entry.bytes.now }
    {
        self.bytes.iter().take_while(|b| **b == b' ').count()
    }

    /// The number whose decimal digits it is.
    fn digits(self) -> Option<u64>
        ensures { MatchOption result ((n : ℕ) → n < 2 ^ 64 → self.entry.bytes.now ≢ decimal n) (λ n. (self.entry.bytes.now ≡ decimal n) × (n < 10 ^ 13)) }
    {
        if let [] | [b'0', _, ..] = self.bytes {
            return None;
        }
        // `str::from_utf8` and `parse` would read plainer, but a file of a million lines takes a seventh longer by them.
        let mut n = 0;
        for c in self.bytes {
            if !c.is_ascii_digit() {
                return None;
            }
            n = n * 10 + u64::from(*c - b'0');
        }
        Some(n)
    }

    /// The number that it writes, a minus before it where it is below zero.
    fn signed(self) -> Option<i64>
        ensures { Exactly signed_decimal Within self.entry.bytes.now result }
    {
        // What `digits` gives is below 10^13, so `as` keeps it; by `i64::try_from` a million lines take a twentieth longer.
        match self.bytes {
            [b'-', bytes @ ..] => match (Field { bytes }).digits()? {
                0 => None,
                n => Some(-(n as i64)),
            },
            _ => Some(self.digits()? as i64),
        }
    }

    /// The number that stands at its right.
    fn number(self) -> Option<i64>
        ensures { Exactly (column (length self.entry.bytes.now)) (Fits (length self.entry.bytes.now)) self.entry.bytes.now result }
    {
        let bytes = &self.bytes[self.blanks()..];
        Field { bytes }.signed()
    }

    /// The number at its right, or none where it is all blank.
    fn number_or_blank(self) -> Option<Option<i64>>
        ensures { Exactly (column_or_blank (length self.entry.bytes.now)) (FitsOrBlank (length self.entry.bytes.now)) self.entry.bytes.now result }
    {
        if self.blanks() == self.bytes.len() {
            return Some(None);
        }
        self.number().map(Some)
    }
}

/// A blank and a number at the right of a width, and what follows.
#[inline]
pub(crate) fn number_at(s: &[u8], width: usize) -> Option<(i64, &[u8])>
    requires { width ≤ 13 }
    ensures { Cut (number_field width) s.now result }
{
    let (bytes, rest) = field_at(s, width)?;
    Some((Field { bytes }.number()?, rest))
}

/// A blank and a width that holds a number or is all blank, and what follows.
pub(crate) fn number_or_blank_at(s: &[u8], width: usize) -> Option<(Option<i64>, &[u8])>
    requires { width ≤ 13 }
    ensures { Cut (number_or_blank_field width) s.now result }
{
    let (bytes, rest) = field_at(s, width)?;
    Some((Field { bytes }.number_or_blank()?, rest))
}
