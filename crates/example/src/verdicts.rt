//! The verdict on a figure.
ghost use Rattle.std.specs.Prelude.{◌≡◌, if◌then◌else◌};

/// What is printed of a figure that is the one that is wanted.
pub const AGREES: &str = "agrees";

/// What is printed of any other.
pub const DIFFERS: &str = "DIFFERS";

/// The verdict on a figure beside the one that is wanted.
pub fn verdict<T: PartialEq>(got: &T, wanted: &T) -> &'static str
    ensures { result.now ≡ (if T.eq got.now wanted.now then AGREES.now else DIFFERS.now) }
{
    if got == wanted { AGREES } else { DIFFERS }
}
