ghost use Rattle.std.specs.Prelude.{◌≡◌};
ghost use Rattle.chain.specs.Walk.{room_of};

use duties::Duty;

// A row of a chain: a duty, and the place of the row that comes next.
// A place, and no pointer or box: the rows are memory that the caller lends, they never move, and nothing is allocated.
#[derive(Clone, Copy)]
pub struct Link {
    pub duty: Duty,
    pub next: usize,
}

// Where the chain of duties and the chain of free rows begin, and how many duties there are.
#[derive(Clone, Copy)]
pub(crate) struct Ends {
    pub(crate) head: usize,
    pub(crate) free: usize,
    pub(crate) count: usize,
}

// How many duties fit: as many as there are rows, and no more than 64.
pub(crate) fn room_of(rows: &[Link]) -> usize
    ensures { result ≡ room_of rows.now }
{
    rows.len().min(64)
}
