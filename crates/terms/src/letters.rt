//! The words that a line writes as one letter.
ghost use Rattle.std.specs.Prelude.{◌≡◌, ◌↔◌, ℕ, Some};
ghost use Rattle.terms.specs.Words.{side_letter, basis_letter, leg_letter, kind_letter};

use crate::words::{Basis, Kind, Leg, Side};

/// A closed list whose members are each written by a letter of their own. What reads or writes any of them names the letter as a
/// ghost member, so this is a trait of its own and no pair of conversions.
// Each letter stands in both directions: one search through a list of all words would want a law that their letters differ.
pub trait Lettered: Copy {
    ghost letter: { Self → ℕ };

    fn letter(self) -> u8
        ensures value { result ≡ letter self };

    /// The word that a byte is the letter of.
    fn of_letter(byte: u8) -> Option<Self>
        ensures value { (word : Self) → (result ≡ Some word) ↔ (letter word ≡ byte) };
}

impl Lettered for Side {
    ghost letter = { side_letter };

    fn letter(self) -> u8 {
        match self {
            Side::Client => b'C',
            Side::House => b'H',
        }
    }

    fn of_letter(byte: u8) -> Option<Side> {
        match byte {
            b'C' => Some(Side::Client),
            b'H' => Some(Side::House),
            _ => None,
        }
    }
}

impl Lettered for Basis {
    ghost letter = { basis_letter };

    fn letter(self) -> u8 {
        match self {
            Basis::Gross => b'G',
            Basis::Net => b'N',
        }
    }

    fn of_letter(byte: u8) -> Option<Basis> {
        match byte {
            b'G' => Some(Basis::Gross),
            b'N' => Some(Basis::Net),
            _ => None,
        }
    }
}

impl Lettered for Leg {
    ghost letter = { leg_letter };

    fn letter(self) -> u8 {
        match self {
            Leg::Long => b'L',
            Leg::Short => b'S',
        }
    }

    fn of_letter(byte: u8) -> Option<Leg> {
        match byte {
            b'L' => Some(Leg::Long),
            b'S' => Some(Leg::Short),
            _ => None,
        }
    }
}

impl Lettered for Kind {
    ghost letter = { kind_letter };

    fn letter(self) -> u8 {
        match self {
            Kind::Call => b'C',
            Kind::Put => b'P',
        }
    }

    fn of_letter(byte: u8) -> Option<Kind> {
        match byte {
            b'C' => Some(Kind::Call),
            b'P' => Some(Kind::Put),
            _ => None,
        }
    }
}
