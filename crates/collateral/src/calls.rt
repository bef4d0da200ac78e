//! Deposits and calls.
ghost use Rattle.std.specs.Prelude.{◌≡◌, replicate};
ghost use Rattle.collateral.specs.Deposits.{deposit_fault, deposit_after, called};
ghost use Rattle.collateral.specs.Records.{nothing};
ghost use Rattle.terms.specs.Faults.{refusal};

use crate::ledger::Ledger;
use crate::records::Collateral;
use sheet::sheets::Sheet;
use terms::faults::Fault;
use terms::limits::OutsideLimits;
use terms::words::{Currency, Layer, Refusal, Side};

/// The most cents of one deposit.
const DEPOSIT_LIMIT: i64 = 1_000_000_000_000;

/// The most cents of one record.
const COLLATERAL_LIMIT: u64 = 10_000_000_000_000;

impl Ledger {
    /// The ledger of a sealed sheet's currencies: nothing is brought yet.
    pub fn new(sheet: &Sheet) -> Ledger
        ensures rates { result.rates ≡ sheet.now.rates }
        ensures records { result.records ≡ replicate 2 (replicate 5 nothing) }
    {
        Ledger {
            rates: sheet.rates(),
            records: [[Collateral::default(); 5]; 2],
        }
    }

    /// Adds a deposit to a side's collateral.
    pub fn deposit(&mut self, side: Side, currency: Currency, cents: i64) -> Result<(), Fault>
        ensures answer { refusal result ≡ deposit_fault self.old.rates.by_number self.old.records side currency cents }
        ensures after { self.new.records ≡ deposit_after (refusal result) self.old.records side currency cents }
        ensures kept { self.new.rates ≡ self.old.rates }
    {
        // Beyond what `within` of terms takes.
        if !(1..=DEPOSIT_LIMIT).contains(&cents) {
            return Err(OutsideLimits.into());
        }
        if !self.rates.quotes(currency) {
            return Err(Fault::new(Refusal::Unknown, Layer::Book).with_currency(currency));
        }
        let record = &mut self.records[side.number()][currency.number()];
        let raised = record.held + cents.unsigned_abs();
        if raised > COLLATERAL_LIMIT {
            return Err(Fault::new(Refusal::Ceiling, Layer::Book).with_currency(currency));
        }
        if record.out.is_some() {
            return Err(Fault::new(Refusal::Notice, Layer::Book).with_currency(currency));
        }
        record.held = raised;
        Ok(())
    }

    /// What a side is called for, where its requirement is so much.
    pub fn call(&self, side: Side, currency: Currency, requirement: u64) -> u64
        ensures value { result ≡ called self.now.records side currency requirement }
    {
        let record = self.records[side.number()][currency.number()];
        requirement.saturating_sub(record.held)
    }
}
