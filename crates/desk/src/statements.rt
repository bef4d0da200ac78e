//! The close: what every account owes, in opening order.
ghost use Rattle.std.specs.Prelude.{◌≡◌, length, map, IfOk};
ghost use Rattle.std.specs.Result.{result_map_both};
ghost use Rattle.book.specs.View.{view};
ghost use Rattle.collateral.specs.Requirements.{owes};
ghost use Rattle.desk.specs.Reports.{statements};

use book::books::Book;
use charge::charges::Charge;
use collateral::statements::{Statement, Statements};
use terms::faults::Fault;

/// Draws up a statement for each account of the book, in opening order; the first account that cannot be margined refuses.
pub fn draw_up<C: Charge>(charge: &C, book: &Book) -> Result<Statements, Fault>
    ensures all { IfOk result (λ xs. length xs ≡ length (view book.now).accounts) }
    ensures answer { result_map_both (map owes) (λ f. f) result ≡ statements (C.Charge.meaning charge.now) (view book.now) }
{
    let mut statements = Statements::new();
    // Opening numbers are counted, as the rows stand in order of name.
    for k in 0..book.account_count() {
        // By its number twice, since what `nth_report` answers is the report of the k-th account; below the count both are there.
        if let (Some(row), Some(answer)) = (book.account(k), book.nth_report(charge, k)) {
            let owed = answer?.owed;
            statements.push(Statement {
                name: row.name,
                side: row.side,
                owed,
            });
        }
    }
    Ok(statements)
}
