//! Rows in ascending order of key, in memory that the caller lends.
#![tactic(auto)]

ghost use Rattle.std.specs.Prelude.{◌≡◌, ℕ, ◌+◌, ◌<◌, ◌≤◌, min, Decides, List, [], ◌++◌, length, take, drop, nat_lt};
ghost use Rattle.std.specs.List.{insert, slice_get};
ghost use Rattle.terms.specs.Order.{order};
ghost use Rattle.register.specs.Rows.{sought, place, is_strictly_sorted_by, Ascending, Ascending-prop, Entry, Found};

use std::cmp::Ordering;
use terms::words::Refusal;

/// A row that is found by its key; its rank is the key as a list of numbers, by which rows are ordered.
pub trait Keyed: Copy {
    type Key: Copy;

    ghost rank: { Self → List ℕ };

    ghost wanted: { Self.Key → List ℕ };

    fn key(&self) -> Self::Key
        ensures value { wanted result ≡ rank self.now };

    fn compare(&self, key: &Self::Key) -> Ordering
        ensures value { result ≡ order (rank self.now) (wanted key.now) };
}

/// The first `len` of the lent rows are the register's, in order of their keys; the memory past them is the lender's.
// A length beside lent rows: no heap is taken.
#[derive(Drop)]
pub struct Register<'a, R: Keyed> {
    rows: &'a mut [R],
    len: usize,
    ghost within: { len ≤ length rows.now },
    ghost sorted: { Ascending R.rank (take len rows.now) } by { Ascending-prop R.rank (take len rows.now) },
}

impl<'a, R: Keyed> Register<'a, R> {
    ghost use Rattle.register.specs.Held.{held, lent, loan};

    /// An empty register over the lent memory.
    pub fn new(rows: &'a mut [R]) -> Self
        ensures empty { held result ≡ [] }
        ensures lent { lent result ≡ rows.old }
        ensures same { (loan result).ghost_name ≡ rows.entry.ghost_name }
    {
        Register { rows, len: 0 }
    }

    pub fn len(&self) -> usize
        ensures value { result ≡ length (held self.now) }
    {
        self.len // the memory past these is spare
    }

    /// The rows, in order of their keys.
    pub fn as_slice(&self) -> &[R]
        ensures value { result.now ≡ held self.now }
    {
        &self.rows[..self.len]
    }

    /// The row at a place.
    pub fn get(&self, i: usize) -> Option<R>
        ensures value { result ≡ slice_get (held self.now) i }
    {
        self.as_slice().get(i).copied()
    }

    /// The place of the row that has the key.
    pub fn find(&self, key: &R::Key) -> Option<usize>
        ensures answer { result ≡ sought R.rank (R.wanted key.now) (held self.now) }
        ensures means { Found R.rank (R.wanted key.now) (held self.now) result }
    {
        place_in_order(self.as_slice(), key)
    }

    /// Whether one more row may be put in: fewer than the limit stand there, and the lent memory has room.
    pub fn has_room(&self, limit: usize) -> bool
        ensures value { result ≡ nat_lt (length (held self.now)) (min limit (length (lent self.now))) }
    {
        self.len < limit && self.len < self.rows.len()
    }

    /// Puts a row in its place, unless its key is there (4), or the limit or the lent room is reached (6).
    pub fn insert(&mut self, row: R, limit: usize) -> Result<usize, Refusal>
        ensures same { (loan self.new).ghost_name ≡ (loan self.old).ghost_name }
        ensures entry { Entry R.rank limit (held self.old) (lent self.old) row result (held self.new) (lent self.new) }
    {
        let key = row.key();
        if self.find(&key).is_some() {
            return Err(Refusal::Twice);
        }
        if !self.has_room(limit) {
            return Err(Refusal::Full);
        }
        let at = place_of(self.as_slice(), &key);
        shift(self.rows, self.len, at, row);
        self.len += 1;
        Ok(at)
    }

    /// The rows, to be read from now on.
    pub fn into_shared(self) -> &'a [R]
        ensures value { result.now ≡ held self.entry }
    {
        let Register { rows, len } = self;
        &rows[..len]
    }
}

/// The place of the first row that has the key, in rows of any order.
// Nothing here calls it: it stands for who has rows in no order, and asks nothing of them.
pub fn place_with<R: Keyed>(rows: &[R], key: &R::Key) -> Option<usize>
    ensures value { result ≡ sought R.rank (R.wanted key.now) rows.now }
{
    rows.iter().position(|row| row.compare(key).is_eq())
}

/// The place of the row that has the key, in rows that are in order: a slice cannot carry this, so it is for our own crates alone.
pub fn place_in_order<R: Keyed>(rows: &[R], key: &R::Key) -> Option<usize>
    requires { Ascending R.rank rows.now }
    ensures value { result ≡ sought R.rank (R.wanted key.now) rows.now }
{
    rows.binary_search_by(|row| row.compare(key)).ok()
}

/// Whether the rows are in order: what `place_in_order` asks for, of rows from elsewhere.
// Nothing here calls it: it stands for who has rows in a plain slice.
pub fn in_order<R: Keyed>(rows: &[R]) -> bool
    ensures answer { result ≡ is_strictly_sorted_by (λ a b. order (R.rank a) (R.rank b)) rows.now }
    ensures means { Decides result (Ascending R.rank rows.now) }
{
    rows.is_sorted_by(|row, next| row.compare(&next.key()).is_lt())
}

/// How many rows stand before the key.
fn place_of<R: Keyed>(rows: &[R], key: &R::Key) -> usize
    requires { Ascending R.rank rows.now }
    ensures value { result ≡ place R.rank (R.wanted key.now) rows.now }
{
    rows.partition_point(|row| row.compare(key).is_lt())
}

/// Moves each row from `at` to `len` up by one, and writes the new one there.
fn shift<R: Copy>(rows: &mut [R], len: usize, at: usize, row: R)
    requires place { at ≤ len }
    requires room { len < length rows.old }
    ensures after { rows.new ≡ insert (take len rows.old) at row ++ drop (len + 1) rows.old }
{
    rows.copy_within(at..len, at + 1);
    rows[at] = row;
}
