//! What holds of the charges, for every class and position: functions that do nothing, so that a contract states each law.
ghost use Rattle.charge.specs.Laws.{ScanningLaw, SpreadLaw, GreaterLaw};

/// Scanning charges the largest of the sixteen losses, and never less than 0.
pub fn scanning_stands()
    ensures law { ScanningLaw }
{}

/// A class of one month has no spread to charge.
pub fn spread_stands()
    ensures law { SpreadLaw }
{}

/// The greater of two charges is the one or the other, whichever is more.
pub fn greater_stands()
    ensures law { GreaterLaw }
{}
