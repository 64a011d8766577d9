// Fresh registers of every make. None of these functions has a premise but that there is a row for a duty.
// One for each make: what differs is the constructor and how much memory it is lent, which is no type parameter. What they share is `works`.
ghost use Rattle.std.specs.Prelude.{◌≡◌, ◌<◌, true, length};

use crate::works::works;
use chain::{Chain, Link};
use duties::Duty;
use pair::Pair;
use shelf::Shelf;

pub fn a_fresh_shelf_works(rows: &mut [Duty], d: Duty) -> bool
    ensures { 0 < length rows.old → result ≡ true }
{
    let mut shelf = Shelf::new(rows);
    works(&mut shelf, d)
}

pub fn a_fresh_chain_works(rows: &mut [Link], d: Duty) -> bool
    ensures { 0 < length rows.old → result ≡ true }
{
    let mut chain = Chain::new(rows);
    works(&mut chain, d)
}

pub fn a_fresh_pair_works(first: &mut [Duty], second: &mut [Link], d: Duty) -> bool
    ensures { 0 < length first.old → 0 < length second.old → result ≡ true }
{
    let mut pair = Pair::new(Shelf::new(first), Chain::new(second));
    works(&mut pair, d)
}

// A pair of a pair of two chains and a pair of two shelves.
pub fn a_fresh_pair_of_pairs_works(
    a: &mut [Link],
    b: &mut [Link],
    c: &mut [Duty],
    e: &mut [Duty],
    d: Duty,
) -> bool
    ensures { 0 < length a.old → 0 < length b.old → 0 < length c.old → 0 < length e.old → result ≡ true }
{
    let chains = Pair::new(Chain::new(a), Chain::new(b));
    let shelves = Pair::new(Shelf::new(c), Shelf::new(e));
    let mut pairs = Pair::new(chains, shelves);
    works(&mut pairs, d)
}
