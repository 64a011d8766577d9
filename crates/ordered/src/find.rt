// The last row with a given key.
ghost use Rattle.std.specs.Prelude.{◌≡◌};
ghost use Rattle.ordered.specs.Ascending.{same};
ghost use Rattle.ordered.specs.Finding.{LastWith, last_place};

use crate::order::TotalOrder;

// What a row is found by.
pub trait Keyed<K> {
    ghost keyed: { Self → K };

    fn key(&self) -> K
        ensures { result ≡ keyed self.now };
}

// By the order alone, as the contract has it: an `Eq` of its own would be one more thing to ask of a key.
fn is_same<K: TotalOrder>(x: &K, y: &K) -> bool
    ensures { result ≡ same K.less x.now y.now }
{
    !x.is_less(y) && !y.is_less(x)
}

// The place, from 0, of the last row with this key.
pub fn find_last<K: TotalOrder, T: Keyed<K>>(rows: &[T], key: K) -> Option<usize>
    ensures place { result ≡ last_place (λ row. same K.less (T.keyed row) key) rows.now }
    ensures last { LastWith T.keyed rows.now key result }
{
    rows.iter().rposition(|row| is_same(&row.key(), &key))
}
