//! An account's name: 1 to 20 capitals, digits, hyphens and inner blanks.
ghost use Rattle.std.specs.Prelude.{◌≡◌, ◌≤◌, ◌++◌, length, drop};
ghost use Rattle.std.specs.List.{list_all};
ghost use Rattle.terms.specs.Names.{name_byte, name_form, named};
ghost use Rattle.terms.specs.Limits.{Gives};

use crate::limits::OutsideLimits;
use std::fmt;
use std::fmt::Write;
use std::str::from_utf8;

/// How many characters a name may have.
pub const NAME_WIDTH: usize = 20;

/// A name, filled with blanks at its right.
#[derive(Clone, Copy, PartialEq, Eq, PartialOrd, Ord, Debug)]
pub struct Name {
    pub text: [u8; NAME_WIDTH],
}

/// The name that a text spells, if it has a name's form.
impl<'a> TryFrom<&'a [u8]> for Name {
    type Error = OutsideLimits;

    ghost try_from_gives = { λ text r. Gives (named text.now) r };

    fn try_from(text: &'a [u8]) -> Result<Name, OutsideLimits> {
        if !has_form(text) {
            return Err(OutsideLimits);
        }
        let mut filled = [b' '; NAME_WIDTH];
        write_front(&mut filled, text);
        Ok(Name { text: filled })
    }
}

/// The name without the blanks at its right.
impl fmt::Display for Name {
    fn fmt<W: fmt::Write>(&self, f: &mut fmt::Formatter<W>) -> fmt::Result {
        let text = from_utf8(&self.text).map_err(|_| fmt::Error)?;
        f.write_str(text.trim_end())
    }
}

/// Whether a character may stand in a name.
pub fn is_name_byte(b: u8) -> bool
    ensures value { result ≡ name_byte b }
{
    b.is_ascii_uppercase() || b.is_ascii_digit() || b == b'-' || b == b' '
}

/// Whether all characters may stand in a name.
fn all_name_bytes(text: &[u8]) -> bool
    ensures value { result ≡ list_all name_byte text.now }
{
    text.iter().all(|b| is_name_byte(*b))
}

/// Whether a text has a name's form.
fn has_form(text: &[u8]) -> bool
    ensures value { result ≡ name_form text.now }
{
    let n = text.len();
    if !(1..=NAME_WIDTH).contains(&n) {
        return false;
    }
    if text[0] == b' ' || text[n - 1] == b' ' {
        return false;
    }
    all_name_bytes(text)
}

/// Writes a text over the front of a place.
fn write_front(place: &mut [u8], text: &[u8])
    requires { length text.now ≤ length place.old }
    ensures after { place.new ≡ text.now ++ drop (length text.now) place.old }
{
    place[0..text.len()].copy_from_slice(text);
}
