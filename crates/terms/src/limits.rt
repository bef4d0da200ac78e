//! What is given to a call and is none of what its place may hold.
ghost use Rattle.terms.specs.Limits.{Gives, within};

use std::error::Error;
use std::fmt;

/// A text that is no name, a key or a number beyond its limits, a code that is no currency's.
#[derive(Clone, Copy, PartialEq, Eq, Debug)]
pub struct OutsideLimits;

impl fmt::Display for OutsideLimits {
    fn fmt<W: fmt::Write>(&self, f: &mut fmt::Formatter<W>) -> fmt::Result {
        f.write_str("outside its limits")
    }
}

impl Error for OutsideLimits {}

/// The number, if it lies from the lowest to the highest.
pub fn within(number: i64, lowest: u32, highest: u32) -> Result<u32, OutsideLimits>
    ensures value { Gives (within number lowest highest) result }
{
    match u32::try_from(number) {
        Ok(number) if (lowest..=highest).contains(&number) => Ok(number),
        _ => Err(OutsideLimits),
    }
}
