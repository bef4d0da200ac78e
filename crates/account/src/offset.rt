//! Credits set against debits: the value of currency sums, the fund, what is owed, and the requirement.
ghost use Rattle.std.specs.Prelude.{◌≡◌, ◌*◌, ◌≤◌, pos, ◌*ℤ◌, unsigned_abs};
ghost use Rattle.account.specs.Sums.{value_of};
ghost use Rattle.account.specs.Offset.{debit, credit, fund_of, loses, owed_of, requirement_of, Law, Limits, Owable};

/// The sums of the five currencies with their rates: each sum within its limit, and each debit's currency with a rate.
// Two arrays and no pairs: a report shows the sums alone, and the rates come from the sheet as they are.
#[derive(Clone, Copy)]
pub struct CurrencySums {
    pub sums: [i64; 5],
    pub rates: [u32; 5],
    ghost limits: { Limits sums rates },
}

/// What each currency still owes, and the requirement value of it all.
#[derive(Clone, Copy)]
pub struct Offset {
    pub owed: [u64; 5],
    pub requirement: u64,
    ghost modest: { Owable owed },
    ghost bound: { requirement ≤ 100000000000000000 },
}

fn debit_of(sum: i64) -> u64
    ensures value { result ≡ debit sum }
{
    sum.max(0).unsigned_abs()
}

fn credit_of(sum: i64) -> u64
    ensures value { result ≡ credit sum }
{
    sum.min(0).unsigned_abs()
}

/// What a debit loses to the fund; a currency with no debit may have no rate.
fn lost(fund: u64, debt: u64, rate: u64) -> u64
    ensures value { result ≡ loses fund debt rate }
    ensures covered { result * rate ≤ fund }
{
    debt.min(fund.checked_div(rate).unwrap_or(0))
}

/// Sum × rate.
fn value_line(sum: i64, rate: u32) -> i64
    requires sum { unsigned_abs sum ≤ 100000000000 }
    requires rate { rate ≤ 200000 }
    ensures value { result ≡ sum *ℤ pos rate }
    ensures bound { unsigned_abs result ≤ 20000000000000000 }
{
    sum * i64::from(rate)
}

impl CurrencySums {
    /// The value of the sums.
    pub fn value(&self) -> i64
        ensures value { result ≡ value_of self.now.sums self.now.rates }
        ensures bound { unsigned_abs result ≤ 100000000000000000 }
    {
        // A loop: where it starts stands written, and is what the gate's edit of it turns.
        let mut value = 0;
        for (&sum, &rate) in self.sums.iter().zip(&self.rates) {
            value += value_line(sum, rate);
        }
        value
    }

    /// The value of the credits.
    fn fund(&self) -> u64
        ensures value { result ≡ fund_of self.now.sums self.now.rates }
    {
        self.sums
            .iter()
            .zip(&self.rates)
            .map(|(&sum, &rate)| credit_of(sum) * u64::from(rate))
            .sum()
    }

    /// What a fund leaves owed, currency by currency.
    fn settle(&self, fund: u64) -> Offset
        ensures owed { result.owed ≡ owed_of fund self.now.sums self.now.rates }
        ensures requirement { result.requirement ≡ requirement_of result.owed self.now.rates }
    {
        let mut left = fund;
        let mut owed = [0; 5];
        let mut requirement = 0;
        // Tried as a zip: nothing is known afterwards of what is written through `iter_mut` in one.
        for (i, place) in owed.iter_mut().enumerate() {
            let rate = u64::from(self.rates[i]);
            let debt = debit_of(self.sums[i]);
            let less = lost(left, debt, rate);
            left -= less * rate;
            *place = debt - less;
            requirement += *place * rate;
        }
        Offset { owed, requirement }
    }

    /// Sets the credits against the debits.
    pub fn offset(&self) -> Offset
        ensures owed { result.owed ≡ owed_of (fund_of self.now.sums self.now.rates) self.now.sums self.now.rates }
        ensures requirement { result.requirement ≡ requirement_of result.owed self.now.rates }
        ensures law { Law self.now.sums self.now.rates result.owed result.requirement }
    {
        self.settle(self.fund())
    }
}
