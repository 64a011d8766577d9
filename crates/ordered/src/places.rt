// What ordered rows do to a slice. It need not ascend, so what holds only where it does has that for a premise.
ghost use Rattle.std.specs.Prelude.{◌≡◌, ◌+◌, ◌-◌, ◌<◌, ◌≤◌, true, false, length, take, drop, Some, None, Decides};
ghost use Rattle.ordered.specs.Ascending.{◌∈◌, member, rising, placed, holding, including, excluding, following, leading, Least, Above, LeastSuch};

use crate::order::TotalOrder;

// The first row.
pub(crate) fn first<T: TotalOrder>(rows: &[T]) -> Option<T>
    ensures row { result ≡ leading rows.now }
    ensures least { rising T.less rows.now ≡ true → Least T.less (λ z. true) rows.now result }
    ensures such { rising T.less rows.now ≡ true → LeastSuch T.less (Above T.less None) rows.now result }
{
    rows.first().copied()
}

// How many rows at the front are less than x, in a slice that need not ascend: of one that does not, `partition_point` says nothing.
pub(crate) fn place<T: TotalOrder>(rows: &[T], x: T) -> usize
    ensures within { result ≤ length rows.now }
    ensures place { result ≡ placed T.less x rows.now }
    ensures there { holding T.less x rows.now ≡ true → result < length rows.now }
{
    rows.iter()
        .position(|y| !y.is_less(&x))
        .unwrap_or(rows.len())
}

// Whether x is one of the rows, where they ascend.
pub(crate) fn holds<T: TotalOrder>(rows: &[T], x: T) -> bool
    ensures answer { result ≡ holding T.less x rows.now }
    ensures set { rising T.less rows.now ≡ true → result ≡ member T.less x rows.now }
    ensures decides { rising T.less rows.now ≡ true → Decides result (x ∈ rows.now) }
{
    let at = place(rows, x);
    at < rows.len() && !x.is_less(&rows[at])
}

// The first row above x.
pub(crate) fn above<T: TotalOrder>(rows: &[T], x: T) -> Option<T>
    ensures row { result ≡ following T.less x rows.now }
    ensures least { rising T.less rows.now ≡ true → Least T.less (T.less x) rows.now result }
    ensures such { rising T.less rows.now ≡ true → LeastSuch T.less (Above T.less (Some x)) rows.now result }
{
    rows.iter().find(|y| x.is_less(y)).copied()
}

// x goes to its place among the first n rows, where it is not, and takes the row after them.
pub(crate) fn insert_row<T: TotalOrder>(rows: &mut [T], n: usize, x: T)
    requires within { n < length rows.old }
    requires fresh { holding T.less x (take n rows.old) ≡ false }
    ensures front { take (n + 1) rows.new ≡ including T.less x (take n rows.old) }
    ensures rest { drop (n + 1) rows.new ≡ drop (n + 1) rows.old }
    ensures ascending { rising T.less (take n rows.old) ≡ true → rising T.less (take (n + 1) rows.new) ≡ true }
{
    let at = place(&rows[..n], x);
    rows.copy_within(at..n, at + 1);
    rows[at] = x;
}

// x leaves the first n rows, among which it is.
pub(crate) fn remove_row<T: TotalOrder>(rows: &mut [T], n: usize, x: T)
    requires within { n ≤ length rows.old }
    requires there { holding T.less x (take n rows.old) ≡ true }
    ensures front { take (n - 1) rows.new ≡ excluding T.less x (take n rows.old) }
    ensures rest { drop (n - 1) rows.new ≡ drop (n - 1) rows.old }
    ensures ascending { rising T.less (take n rows.old) ≡ true → rising T.less (take (n - 1) rows.new) ≡ true }
{
    let at = place(&rows[..n], x);
    rows.copy_within(at + 1..n, at);
}
