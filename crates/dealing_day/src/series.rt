//! The three series of the example's market.
ghost use Rattle.std.specs.Prelude.{◌<◌};

use terms::codes::Code;
use terms::keys::AskedKey;
use terms::words::Kind;

/// The HKD class.
pub(crate) const HKZ: Code = Code {
    first: b'H',
    second: b'K',
    third: b'Z',
};

/// The RMB class.
const RMZ: Code = Code {
    first: b'R',
    second: b'M',
    third: b'Z',
};

/// A series, in the order of the sheet.
#[derive(Clone, Copy)]
pub enum Listed {
    Call,
    Put,
    YuanPut,
}

impl Listed {
    /// All three, each at the place of its number.
    pub(crate) const ALL: [Listed; 3] = [Listed::Call, Listed::Put, Listed::YuanPut];

    /// Its place on the sheet.
    pub(crate) fn number(self) -> usize
        ensures bound { result < 3 }
    {
        self as usize
    }

    pub(crate) fn key(self) -> AskedKey {
        match self {
            Listed::Call => AskedKey {
                class: HKZ,
                month: 202_612,
                kind: Kind::Call,
                strike: 9_500,
            },
            Listed::Put => AskedKey {
                class: HKZ,
                month: 202_701,
                kind: Kind::Put,
                strike: 10_000,
            },
            Listed::YuanPut => AskedKey {
                class: RMZ,
                month: 202_701,
                kind: Kind::Put,
                strike: 9_000,
            },
        }
    }

    pub(crate) fn words(self) -> &'static str {
        match self {
            Listed::Call => "December call",
            Listed::Put => "January put",
            Listed::YuanPut => "RMB January put",
        }
    }
}
