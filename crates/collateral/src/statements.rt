//! What each account owes at the close.
ghost use Rattle.std.specs.Prelude.{◌≡◌, ℕ, ◌<◌, ◌≤◌, [], ◌∷◌, ◌++◌, length, slice_index};
ghost use Rattle.collateral.specs.declared.statements.TheConstants.{OWED_LIMIT};

use std::marker::Model;
use terms::names::Name;
use terms::words::Side;

/// The most cents that an account can owe in a currency.
pub const OWED_LIMIT: u64 = 100_000_000_000;

/// What one account owes in each currency.
#[derive(Clone, Copy)]
pub struct Statement {
    pub name: Name,
    pub side: Side,
    pub owed: [u64; 5],
    ghost modest: { (k : ℕ) → slice_index owed k ≤ OWED_LIMIT },
}

/// What a place of the list holds where no account has a statement yet.
impl Default for Statement {
    ghost use Rattle.collateral.specs.Blanks.{blank};

    ghost is_default = { λ s. s ≡ blank };

    fn default() -> Statement {
        Statement {
            name: Name { text: [b' '; 20] },
            side: Side::Client,
            owed: [0; 5],
        }
    }
}

/// The statements of a book's accounts, in opening order.
// An array that knows its length cannot be copied whole: `Copy`. So the places behind the count are alike, and the list alone tells the fields.
#[derive(Clone, Copy)]
pub struct Statements {
    rows: [Statement; 32],
    count: usize,
}

impl Model for Statements {
    ghost use Rattle.std.specs.Prelude.{List, ◌-◌, ◌++◌, length, take, replicate};
    ghost use Rattle.collateral.specs.declared.statements.Statement.{Statement};
    ghost use Rattle.collateral.specs.Blanks.{Kept, blank, filled_up, counted};

    ghost Value = { List Statement };

    ghost view = { λ s. take s.count s.rows };

    ghost invariant = { λ s. Kept s.count s.rows };

    ghost inverse = { λ xs. record { rows = xs ++ replicate (32 - length xs) blank; count = length xs } };

    ghost inverse_ok = { λ s h i. record { rows = filled_up s.count s.rows h i; count = counted s.count s.rows h i } };
}

impl Statements {
    /// No account yet.
    pub fn new() -> Statements
        ensures none { result ≡ [] }
    {
        Statements {
            rows: [Statement::default(); 32],
            count: 0,
        }
    }

    /// Adds the next account's statement; a book has no more than 32 accounts.
    // It asks for room: an answer would have every caller tell of a 33rd account, which no book has.
    pub fn push(&mut self, statement: Statement)
        requires room { length self.old < 32 }
        ensures after { self.new ≡ self.old ++ statement ∷ [] }
    {
        self.rows[self.count] = statement;
        self.count += 1;
    }

    /// The statements, to be read.
    pub fn as_slice(&self) -> &[Statement]
        ensures value { result.now ≡ self.now }
        ensures bound { length result.now ≤ 32 }
    {
        &self.rows[..self.count]
    }
}
