// The rows of a chain, one after the other.
ghost use Rattle.std.specs.Prelude.{◌≡◌};
ghost use Rattle.std.specs.Iterator.{YieldsFirstRef, item_count};
ghost use Rattle.chain.specs.Walk.{trail, to_come};

use crate::link::{Ends, Link};

// `left` rows are still to come, from the place `at` on.
#[derive(Drop)]
pub(crate) struct Walk<'a> {
    rows: &'a [Link],
    at: usize,
    left: usize,
}

impl<'a> Walk<'a> {
    pub(crate) fn new(rows: &'a [Link], ends: Ends) -> Walk<'a>
        ensures { to_come result ≡ trail rows.now ends.head ends.count }
    {
        Walk {
            rows,
            at: ends.head,
            left: ends.count,
        }
    }
}

impl<'a> Iterator for Walk<'a> {
    type Item = &'a Link;

    ghost next_gives = { YieldsFirstRef to_come };

    ghost remaining = { item_count to_come };

    // In a chain in order each of them is a row; `get` keeps any other safe.
    fn next(&mut self) -> Option<&'a Link> {
        self.left = self.left.checked_sub(1)?;
        let row = self.rows.get(self.at)?;
        self.at = row.next;
        Some(row)
    }
}
