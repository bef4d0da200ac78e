//! Names: at the left of twenty columns, blanks behind them.
ghost use Rattle.std.specs.Prelude.{◌≡◌, ◌≤◌, ◌==◌, length, MatchOption};
ghost use Rattle.std.specs.List.{suffix_len};
ghost use Rattle.lines.specs.Columns.{Is, Isnt, Spelled, left};
ghost use Rattle.lines.specs.Fields.{Alien, Front, name_field};

use crate::columns::field_at;
use terms::names::Name;

/// How many blanks a field ends with.
fn blanks_behind(field: &[u8]) -> usize
    ensures value { result ≡ suffix_len (λ b. b == 32) field.now }
    ensures bound { result ≤ length field.now }
{
    field.iter().rev().take_while(|b| **b == b' ').count()
}

/// The name that stands at the left of a field.
fn name_of(field: &[u8]) -> Option<&[u8]>
    requires { length field.now ≡ 20 }
    ensures { MatchOption result (Isnt (left 20) Spelled field.now) (λ x. Is (left 20) Spelled field.now x.now) }
{
    let text = &field[..field.len() - blanks_behind(field)];
    Name::try_from(text).ok()?;
    Some(text)
}

/// A blank and a name, and what follows.
pub(crate) fn name_at(s: &[u8]) -> Option<(&[u8], &[u8])>
    ensures { MatchOption result (Alien name_field s.now) (λ p. Front name_field s.now p.0.now p.1.now) }
{
    let (field, rest) = field_at(s, 20)?;
    Some((name_of(field)?, rest))
}
