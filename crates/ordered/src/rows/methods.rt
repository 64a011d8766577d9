ghost use Rattle.std.specs.Prelude.{◌≡◌, ℕ, ◌<◌, ◌≤◌, min, true, false, not, ◌&&◌, ◌||◌, ◌⊎◌, [], length, drop, if◌then◌else◌, Some, None, Decides, nat_lt};
ghost use Rattle.ordered.specs.Ascending.{◌∈◌, same, member, rising, holding, including, excluding, following, leading, Least, Above, LeastSuch};
ghost use Rattle.ordered.specs.Changes.{Entered, Struck};
ghost use Rattle.ordered.specs.Rows.{items, capacity};

use crate::order::TotalOrder;
use crate::places::{above, first, holds, insert_row, remove_row};
use crate::rows::OrderedRows;

// What a call leaves as it was is promised by each call (`spare`, `room`): it is about before and after, so no type can keep it.
// That the rows ascend then (`ascending`) is promised too, although the type says it.
impl<'a, T: TotalOrder> OrderedRows<'a, T> {
    pub fn new(rows: &'a mut [T]) -> OrderedRows<'a, T>
        ensures none { items result ≡ [] }
        ensures spare { result.rows.now ≡ rows.old }
    {
        OrderedRows { rows, count: 0 }
    }

    // The rows that are in use.
    fn in_use(&self) -> &[T]
        ensures { result.now ≡ items self.now }
    {
        &self.rows[..self.count]
    }

    pub fn count(&self) -> usize
        ensures { result ≡ length (items self.now) }
    {
        self.in_use().len()
    }

    pub fn room(&self) -> usize
        ensures { result ≡ capacity self.now }
    {
        self.rows.len()
    }

    pub fn holds(&self, x: T) -> bool
        ensures answer { result ≡ holding T.less x (items self.now) }
        ensures set { result ≡ member T.less x (items self.now) }
        ensures decides { Decides result (x ∈ items self.now) }
    {
        holds(self.in_use(), x)
    }

    // The first row above x.
    pub fn after(&self, x: T) -> Option<T>
        ensures row { result ≡ following T.less x (items self.now) }
        ensures least { Least T.less (T.less x) (items self.now) result }
        ensures such { LeastSuch T.less (Above T.less (Some x)) (items self.now) result }
    {
        above(self.in_use(), x)
    }

    pub fn first(&self) -> Option<T>
        ensures row { result ≡ leading (items self.now) }
        ensures least { Least T.less (λ z. true) (items self.now) result }
        ensures such { LeastSuch T.less (Above T.less None) (items self.now) result }
    {
        first(self.in_use())
    }

    // No row is left. The memory stays as it is.
    pub fn clear(&mut self)
        ensures none { items self.new ≡ [] }
        ensures spare { self.new.rows.now ≡ self.old.rows.now }
    {
        self.count = 0;
    }

    // Whether there is no room for another row where at most so many may be in use.
    fn is_full(&self, limit: usize) -> bool
        ensures { result ≡ not (nat_lt (length (items self.now)) (min (capacity self.now) limit)) }
    {
        let room = self.rows.len().min(limit);
        room <= self.count
    }

    // x, which is not there, goes to its place.
    fn insert_new(&mut self, x: T)
        requires fresh { holding T.less x (items self.old) ≡ false }
        requires within { length (items self.old) < capacity self.old }
        ensures rows { items self.new ≡ including T.less x (items self.old) }
        ensures spare { drop (length (items self.new)) self.new.rows.now ≡ drop (length (items self.new)) self.old.rows.now }
        ensures room { capacity self.new ≡ capacity self.old }
    {
        insert_row(self.rows, self.count, x);
        self.count += 1;
    }

    // x goes to its place; false, with nothing changed, where there is no room for it.
    pub fn insert(&mut self, x: T) -> bool
        ensures answer { result ≡ (holding T.less x (items self.old) || nat_lt (length (items self.old)) (capacity self.old)) }
        ensures rows { items self.new ≡ (if result then including T.less x (items self.old) else items self.old) }
        ensures set { Entered x result (items self.old) (items self.new) (capacity self.old) }
        ensures unchanged { (result ≡ false) ⊎ (x ∈ items self.old) → self.new ≡ self.old }
        ensures spare { (n : ℕ) → length (items self.new) ≤ n → drop n self.new.rows.now ≡ drop n self.old.rows.now }
        ensures room { capacity self.new ≡ capacity self.old }
        ensures ascending { rising T.less (items self.new) ≡ true }
        ensures members { result ≡ true → (z : T) → member T.less z (items self.new) ≡ (same T.less z x || member T.less z (items self.old)) }
    {
        let room = self.room();
        self.insert_up_to(room, x)
    }

    // The same where at most so many rows may be in use.
    pub fn insert_up_to(&mut self, limit: usize, x: T) -> bool
        ensures answer { result ≡ (holding T.less x (items self.old) || nat_lt (length (items self.old)) (min (capacity self.old) limit)) }
        ensures rows { items self.new ≡ (if result then including T.less x (items self.old) else items self.old) }
        ensures set { length (items self.old) ≤ min (capacity self.old) limit → Entered x result (items self.old) (items self.new) (min (capacity self.old) limit) }
        ensures fits { length (items self.old) ≤ min (capacity self.old) limit → length (items self.new) ≤ min (capacity self.old) limit }
        ensures unchanged { (result ≡ false) ⊎ (x ∈ items self.old) → self.new ≡ self.old }
        ensures spare { (n : ℕ) → length (items self.new) ≤ n → drop n self.new.rows.now ≡ drop n self.old.rows.now }
        ensures room { capacity self.new ≡ capacity self.old }
        ensures ascending { rising T.less (items self.new) ≡ true }
    {
        if self.holds(x) {
            return true;
        }
        if self.is_full(limit) {
            return false;
        }
        self.insert_new(x);
        true
    }

    // x, which is there, leaves.
    fn remove_old(&mut self, x: T)
        requires there { holding T.less x (items self.old) ≡ true }
        ensures rows { items self.new ≡ excluding T.less x (items self.old) }
        ensures spare { drop (length (items self.new)) self.new.rows.now ≡ drop (length (items self.new)) self.old.rows.now }
        ensures room { capacity self.new ≡ capacity self.old }
    {
        remove_row(self.rows, self.count, x);
        self.count -= 1;
    }

    // x leaves; false, with nothing changed, where it was not there.
    pub fn remove(&mut self, x: T) -> bool
        ensures answer { result ≡ holding T.less x (items self.old) }
        ensures rows { items self.new ≡ excluding T.less x (items self.old) }
        ensures set { Struck x result (items self.old) (items self.new) }
        ensures fewer { length (items self.new) ≤ length (items self.old) }
        ensures unchanged { result ≡ false → self.new ≡ self.old }
        ensures spare { (n : ℕ) → length (items self.new) ≤ n → drop n self.new.rows.now ≡ drop n self.old.rows.now }
        ensures room { capacity self.new ≡ capacity self.old }
        ensures ascending { rising T.less (items self.new) ≡ true }
        ensures members { (z : T) → member T.less z (items self.new) ≡ (not (same T.less z x) && member T.less z (items self.old)) }
    {
        if !self.holds(x) {
            return false;
        }
        self.remove_old(x);
        true
    }
}
