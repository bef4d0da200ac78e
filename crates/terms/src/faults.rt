//! A refusal with its layer and its place.
ghost use Rattle.std.specs.Prelude.{◌≡◌};
ghost use Rattle.terms.specs.Faults.{refused, with_line, with_account, with_class, with_currency, with_label};
ghost use Rattle.terms.specs.declared.words.Layer.TheVariants.{Book};
ghost use Rattle.terms.specs.declared.words.Refusal.TheVariants.{Limit};

use crate::codes::Code;
use crate::limits::OutsideLimits;
use crate::names::Name;
use crate::words::{Currency, Label, Layer, Refusal};
use std::error::Error;
use std::fmt;
use std::fmt::Write;
use std::str::from_utf8;

/// What is at fault: each part is blank where nothing of its kind is.
#[derive(Clone, Copy, PartialEq, Eq, Debug)]
pub struct Place {
    pub line: Option<u32>,
    pub account: Option<Name>,
    pub class: Option<Code>,
    pub currency: Option<Currency>,
    pub label: Option<Label>,
}

#[derive(Clone, Copy, PartialEq, Eq, Debug)]
pub struct Fault {
    pub refusal: Refusal,
    pub layer: Layer,
    pub place: Place,
}

impl Fault {
    /// A refusal that names nothing.
    pub fn new(refusal: Refusal, layer: Layer) -> Fault
        ensures value { result ≡ refused refusal layer }
    {
        Fault {
            refusal,
            layer,
            place: Place {
                line: None,
                account: None,
                class: None,
                currency: None,
                label: None,
            },
        }
    }

    // One for each part: one method taking a closure would have every caller write `|place| Place { class: Some(c), ..place }`.

    pub fn with_line(self, line: u32) -> Fault
        ensures value { result ≡ with_line line self }
    {
        Fault {
            place: Place {
                line: Some(line),
                ..self.place
            },
            ..self
        }
    }

    pub fn with_account(self, account: Name) -> Fault
        ensures value { result ≡ with_account account self }
    {
        Fault {
            place: Place {
                account: Some(account),
                ..self.place
            },
            ..self
        }
    }

    pub fn with_class(self, class: Code) -> Fault
        ensures value { result ≡ with_class class self }
    {
        Fault {
            place: Place {
                class: Some(class),
                ..self.place
            },
            ..self
        }
    }

    pub fn with_currency(self, currency: Currency) -> Fault
        ensures value { result ≡ with_currency currency self }
    {
        Fault {
            place: Place {
                currency: Some(currency),
                ..self.place
            },
            ..self
        }
    }

    pub fn with_label(self, label: Label) -> Fault
        ensures value { result ≡ with_label label self }
    {
        Fault {
            place: Place {
                label: Some(label),
                ..self.place
            },
            ..self
        }
    }
}

/// What is outside its limits is refused so by the sheet's and the book's calls.
impl From<OutsideLimits> for Fault {
    ghost from_gives = { λ _ fault. fault ≡ refused Limit Book };

    fn from(_: OutsideLimits) -> Fault {
        Fault::new(Refusal::Limit, Layer::Book)
    }
}

/// A text after its word, without blanks at its right, where it can be shown: a sentence goes on without a part that is no text.
fn fmt_text<W: fmt::Write>(f: &mut fmt::Formatter<W>, word: &str, bytes: &[u8]) -> fmt::Result {
    if let Ok(text) = from_utf8(bytes) {
        let shown = text.trim_end();
        write!(f, "; {word} {shown}")?;
    }
    Ok(())
}

/// What is at fault, each part after its word.
impl fmt::Display for Place {
    fn fmt<W: fmt::Write>(&self, f: &mut fmt::Formatter<W>) -> fmt::Result {
        if let Some(account) = self.account {
            fmt_text(f, "account", &account.text)?;
        }
        if let Some(class) = self.class {
            fmt_text(f, "class", &[class.first, class.second, class.third])?;
        }
        if let Some(currency) = self.currency {
            write!(f, "; currency {currency}")?;
        }
        if let Some(label) = self.label {
            write!(f, "; charge {label}")?;
        }
        Ok(())
    }
}

/// The sentence for a person: where, which rule, which layer, and what is at fault.
impl fmt::Display for Fault {
    fn fmt<W: fmt::Write>(&self, f: &mut fmt::Formatter<W>) -> fmt::Result {
        match self.place.line {
            Some(line) => write!(f, "line {line}: ")?,
            None => write!(f, "at the report: ")?,
        }
        let number = self.refusal.number();
        let Fault {
            refusal,
            layer,
            place,
        } = *self;
        write!(f, "refused {number} {refusal} (layer {layer}){place}.")
    }
}

impl Error for Fault {}
