//! The words of a line: codes of three capitals, single letters, and the key of a series.
ghost use Rattle.lines.specs.Fields.{Cut, code_field, key_field, letter_field};

use crate::columns::number_at;
use terms::codes::Code;
use terms::keys::AskedKey;
use terms::letters::Lettered;
use terms::words::Kind;

/// A blank and a code of three capitals, and what follows.
pub(crate) fn code_at(s: &[u8]) -> Option<(Code, &[u8])>
    ensures { Cut code_field s.now result }
{
    let [b' ', first, second, third, rest @ ..] = s else {
        return None;
    };
    let code = Code {
        first: *first,
        second: *second,
        third: *third,
    };
    code.is_proper().then_some((code, rest))
}

/// A blank and the letter of a word, and what follows.
pub(crate) fn word_at<W: Lettered>(s: &[u8]) -> Option<(W, &[u8])>
    ensures { Cut (letter_field W.letter) s.now result }
{
    match s {
        [b' ', letter, rest @ ..] => Some((W::of_letter(*letter)?, rest)),
        _ => None,
    }
}

/// The key of a series, and what follows.
pub(crate) fn key_at(s: &[u8]) -> Option<(AskedKey, &[u8])>
    ensures { Cut key_field s.now result }
{
    let (class, s) = code_at(s)?;
    let (month, s) = number_at(s, 6)?;
    let (kind, s) = word_at::<Kind>(s)?;
    let (strike, s) = number_at(s, 8)?;
    let key = AskedKey {
        class,
        month,
        kind,
        strike,
    };
    Some((key, s))
}
