// A register as a set of std beside its room. It knows nothing of the order in which crate duties puts duties: its own stands below.
use duties::{Duty, Literal, Task};
use std::alloc::{AllocError, Global};
use std::collections::BTreeSet;
use std::ops::Bound;

// A duty as it compares: by due minute, then scan, reach, hold, then by what is asked, a point before its denial.
// The derives state this order, and these types a duty, a second time, on purpose: a trial that took them from crate duties would not try them.
#[derive(Clone, Copy, PartialEq, Eq, PartialOrd, Ord)]
pub(crate) struct Key {
    pub(crate) due: u32,
    asked: Asked,
}

#[derive(Clone, Copy, PartialEq, Eq, PartialOrd, Ord)]
enum Asked {
    Scan(u64),
    Reach(Side),
    Hold(Side),
}

#[derive(Clone, Copy, PartialEq, Eq, PartialOrd, Ord)]
struct Side {
    point: u8,
    is_denied: bool,
}

impl From<Literal> for Side {
    fn from(literal: Literal) -> Side {
        let (point, is_denied) = match literal {
            Literal::Is(point) => (point, false),
            Literal::Not(point) => (point, true),
        };
        Side { point, is_denied }
    }
}

impl From<Duty> for Key {
    fn from(d: Duty) -> Key {
        let asked = match d.task {
            Task::Scan(tags) => Asked::Scan(tags.0),
            Task::Reach(literal) => Asked::Reach(literal.into()),
            Task::Hold(literal) => Asked::Hold(literal.into()),
        };
        Key { due: d.due, asked }
    }
}

#[derive(Drop)]
pub(crate) struct Plain {
    keys: BTreeSet<Key>,
    room: usize,
}

impl Plain {
    pub(crate) fn new(heap: Global, room: usize) -> Plain {
        Plain {
            keys: BTreeSet::new(heap),
            room,
        }
    }

    pub(crate) fn count(&self) -> usize {
        self.keys.len()
    }

    pub(crate) fn room(&self) -> usize {
        self.room
    }

    pub(crate) fn keys(&self) -> &BTreeSet<Key> {
        &self.keys
    }

    pub(crate) fn held(&self, k: Key) -> bool {
        self.keys.contains(&k)
    }

    pub(crate) fn after(&self, from: Option<Key>) -> Option<Key> {
        let above = from.map_or(Bound::Unbounded, Bound::Excluded);
        self.keys.range((above, Bound::Unbounded)).next().copied()
    }

    pub(crate) fn enter(&mut self, k: Key) -> Result<bool, AllocError> {
        let fits = self.held(k) || self.keys.len() < self.room;
        if fits {
            self.keys.insert(k)?;
        }
        Ok(fits)
    }

    pub(crate) fn strike(&mut self, k: Key) -> bool {
        self.keys.remove(&k)
    }

    pub(crate) fn clear(&mut self) {
        self.keys.clear();
    }
}
