//! The calls that write a sheet; each refuses by itself, and a refusal alters nothing.
ghost use Rattle.std.specs.Prelude.{◌≡◌, length, None};
ghost use Rattle.terms.specs.Faults.{refusal};
ghost use Rattle.sheet.specs.State.{Rate, Class, Listed, Step, entry_fault, fresh, key_fault, line_fault, values_fault};
ghost use Rattle.sheet.specs.View.{view};

use crate::drafts::DraftSheet;
use crate::limits::{MOST_CLASSES, MOST_RATE, MOST_SERIES, class_row, series_row, values_fit};
use crate::rates::Rates;
use crate::rows::{ClassRow, Listing, Series};
use crate::sheets::Sheet;
use register::Register;
use terms::codes::Code;
use terms::faults::Fault;
use terms::keys::SeriesKey;
use terms::limits::{OutsideLimits, within};
use terms::words::{Currency, Layer, Refusal};

impl<'a> DraftSheet<'a> {
    /// An empty sheet, with HKD's own rate, over the lent memory.
    pub fn new(classes: &'a mut [ClassRow], series: &'a mut [Series]) -> DraftSheet<'a>
        ensures value { view result ≡ fresh (length classes.old) (length series.old) }
    {
        DraftSheet {
            rates: Rates::home(),
            classes: Register::new(classes),
            series: Register::new(series),
        }
    }

    /// Puts a currency on the sheet; refused: a rate beyond its limits (3), a currency that is there (4), as HKD always is.
    pub fn add_rate(&mut self, currency: Currency, rate: i64) -> Result<(), Fault>
        ensures after { Step (view self.old) (Rate currency rate) (refusal result) (view self.new) }
    {
        let rate = within(rate, 1, MOST_RATE)?;
        if self.rates.quotes(currency) {
            return Err(Fault::new(Refusal::Twice, Layer::Book).with_currency(currency));
        }
        self.rates.put(currency, rate);
        Ok(())
    }

    // Four parts and no struct of them: a class is told to this call and to the maker of its row alone, a series to two calls.

    /// Puts a class in; refused: beyond its limits (3), its code there (4), its currency not on the sheet (5), no room (6).
    pub fn add_class(
        &mut self,
        code: Code,
        currency: Currency,
        spread: Option<i64>,
        minimum: i64,
    ) -> Result<(), Fault>
        ensures after { Step (view self.old) (Class code currency spread minimum) (refusal result) (view self.new) }
    {
        let row = class_row(code, currency, spread, minimum)?;
        if self.classes.find(&code).is_some() {
            return Err(Fault::new(Refusal::Twice, Layer::Book).with_class(code));
        }
        if !self.rates.quotes(currency) {
            return Err(Fault::new(Refusal::Unknown, Layer::Book).with_currency(currency));
        }
        told(self.classes.insert(row, MOST_CLASSES))
    }

    /// Judges a listing at its own line, without its array: beyond its limits (3), its key there (4), its class absent (5), no room (6).
    pub fn judge_series(&self, listing: Listing) -> Result<(), Fault>
        ensures value { refusal result ≡ line_fault (view self.now) listing }
    {
        let row = series_row(&listing, [0; 16])?; // zeros for the array, which its own lines judge: a maker without one would repeat these tests
        self.judge_key(&row.key)?;
        if !self.series.has_room(MOST_SERIES) {
            return Err(Fault::new(Refusal::Full, Layer::Book));
        }
        Ok(())
    }

    /// Puts a series in, with its array; refused as at its own line, and where an amount of the array is beyond its limit (3).
    pub fn add_series(&mut self, listing: Listing, array: [i64; 16]) -> Result<(), Fault>
        ensures after { Step (view self.old) (Listed listing array) (refusal result) (view self.new) }
    {
        let row = series_row(&listing, array)?;
        judge_amounts(&array)?;
        self.judge_key(&row.key)?;
        told(self.series.insert(row, MOST_SERIES))
    }

    /// The sheet as it is, to be read from now on.
    pub fn seal(self) -> Sheet<'a>
        ensures rates { result.rates.by_number ≡ (view self.entry).rates }
        ensures classes { result.classes.now ≡ (view self.entry).classes }
        ensures series { result.series.now ≡ (view self.entry).series }
    {
        let DraftSheet {
            rates,
            classes,
            series,
        } = self;
        Sheet {
            rates,
            classes: classes.into_shared(),
            series: series.into_shared(),
        }
    }

    /// Refuses a key that the sheet has already, and one whose class it has not.
    fn judge_key(&self, key: &SeriesKey) -> Result<(), Fault>
        ensures value { refusal result ≡ key_fault (view self.now) key.now None }
    {
        if self.series.find(key).is_some() {
            return Err(Fault::new(Refusal::Twice, Layer::Book).with_class(key.class));
        }
        if self.classes.find(&key.class).is_none() {
            return Err(Fault::new(Refusal::Unknown, Layer::Book).with_class(key.class));
        }
        Ok(())
    }
}

/// Judges eight amounts of a risk array at their own line.
pub fn judge_values(values: &[i64; 8]) -> Result<(), Fault>
    ensures value { refusal result ≡ values_fault values.now }
{
    judge_amounts(values)
}

/// Refuses amounts of which one is beyond its limit.
fn judge_amounts(values: &[i64]) -> Result<(), Fault>
    ensures value { refusal result ≡ values_fault values.now }
{
    if !values_fit(values) {
        return Err(Fault::from(OutsideLimits));
    }
    Ok(())
}

/// The answer of a register, as a call tells it.
fn told(answer: Result<usize, Refusal>) -> Result<(), Fault>
    ensures value { refusal result ≡ entry_fault answer }
{
    answer
        .map(|_| ())
        .map_err(|refusal| Fault::new(refusal, Layer::Book))
}
