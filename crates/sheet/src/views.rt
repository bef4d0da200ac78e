//! What is read of a sealed sheet.
ghost use Rattle.std.specs.Prelude.{◌≡◌, ℕ, ◌<◌, ◌≤◌, length, Some, slice_index};
ghost use Rattle.terms.specs.Codes.{lettered};
ghost use Rattle.terms.specs.Keys.{figured};
ghost use Rattle.terms.specs.Words.{currency_number};
ghost use Rattle.register.specs.Rows.{sought};
ghost use Rattle.sheet.specs.Given.{given, class_at};
ghost use Rattle.sheet.specs.Limits.{quoted};
ghost use Rattle.sheet.specs.Plain.{plain};
ghost use Rattle.sheet.specs.Rows.{Spanned, class_rank, series_rank};

use crate::classes::Class;
use crate::ranges::{Span, part, span_of};
use crate::rates::Rates;
use crate::rows::ClassRow;
use crate::sheets::Sheet;
use register::place_in_order;
use terms::codes::Code;
use terms::keys::SeriesKey;
use terms::words::Currency;

impl<'a> Sheet<'a> {
    pub fn class_count(&self) -> usize
        ensures value { result ≡ length self.now.classes.now }
        ensures bound { result ≤ 16 }
    {
        self.classes.len()
    }

    pub fn series_count(&self) -> usize
        ensures value { result ≡ length self.now.series.now }
        ensures bound { result ≤ 128 }
    {
        self.series.len()
    }

    /// The rates of the currencies on the sheet.
    pub fn rates(&self) -> Rates
        ensures value { result ≡ self.now.rates }
    {
        self.rates // as the draft had them
    }

    /// Whether a currency is on the sheet.
    pub fn is_quoted(&self, currency: Currency) -> bool
        ensures value { result ≡ quoted self.now.rates.by_number currency }
    {
        self.rates.quotes(currency)
    }

    /// The rows of the classes, in order of their codes.
    pub fn class_rows(&self) -> &'a [ClassRow]
        ensures value { result.now ≡ self.now.classes.now }
    {
        self.classes // all of them
    }

    /// The place of the class that has the code.
    pub fn find_class(&self, code: &Code) -> Option<usize>
        ensures value { result ≡ sought class_rank (lettered code.now) self.now.classes.now }
        ensures bound { (i : ℕ) → result ≡ Some i → i < length self.now.classes.now }
    {
        place_in_order(self.classes, code)
    }

    /// The place of the series that has the key.
    pub fn find_series(&self, key: &SeriesKey) -> Option<usize>
        ensures value { result ≡ sought series_rank (figured key.now) self.now.series.now }
        ensures bound { (i : ℕ) → result ≡ Some i → i < length self.now.series.now }
    {
        place_in_order(self.series, key)
    }

    // The reads below ask for a place that is there: our own crates count the classes first. A place of a type of its own would have to be
    // asked for by `Option`, and then each of them would tell of a class that is not there.

    /// The row of the class at a place; its currency is on the sheet.
    pub fn class_row(&self, i: usize) -> ClassRow
        requires { i < length self.now.classes.now }
        ensures value { result ≡ class_at self.now.classes.now i }
        ensures bound { 0 < slice_index self.now.rates.by_number (currency_number result.currency) }
    {
        self.classes[i]
    }

    /// The class at a place, with its series.
    pub fn class(&self, i: usize) -> Class<'a>
        requires { i < length self.now.classes.now }
        ensures value { plain result ≡ given (class_at self.now.classes.now i) self.now.series.now }
    {
        let row = self.classes[i];
        let series = part(self.series, &row.code);
        Class {
            spread_rate: row.spread_rate,
            minimum_rate: row.minimum_rate,
            series,
        }
    }

    /// Where the series of the class at a place stand.
    pub fn span(&self, i: usize) -> Span
        requires { i < length self.now.classes.now }
        ensures value { Spanned (class_at self.now.classes.now i).code self.now.series.now result.from result.to }
    {
        span_of(self.series, &self.classes[i].code)
    }
}
