//! Where the series of a class stand.
ghost use Rattle.std.specs.Prelude.{◌≡◌};
ghost use Rattle.register.specs.Rows.{Ascending};
ghost use Rattle.sheet.specs.Rows.{series_rank, before_class, through_class, of_class, Spanned};

use crate::rows::Series;
use terms::codes::Code;

/// From one place up to, and without, another.
#[derive(Clone, Copy)]
pub struct Span {
    pub from: usize,
    pub to: usize,
}

/// Where the series of the class stand: together, since rows are in order of class first.
pub(crate) fn span_of(rows: &[Series], code: &Code) -> Span
    requires { Ascending series_rank rows.now }
    ensures value { Spanned code.now rows.now result.from result.to }
    ensures first { result.from ≡ before_class code.now rows.now }
    ensures end { result.to ≡ through_class code.now rows.now }
{
    let from = rows.partition_point(|row| row.key.class < *code);
    let to = rows.partition_point(|row| row.key.class <= *code);
    Span { from, to }
}

/// The series of the class.
pub(crate) fn part<'a>(rows: &'a [Series], code: &Code) -> &'a [Series]
    requires { Ascending series_rank rows.now }
    ensures value { result.now ≡ of_class code.now rows.now }
{
    let span = span_of(rows, code);
    &rows[span.from..span.to]
}
