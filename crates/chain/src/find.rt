// Where a duty belongs in a chain, and which comes after it.
ghost use Rattle.std.specs.Prelude.{◌≡◌, map};
ghost use Rattle.duties.specs.Duties.{before};
ghost use Rattle.chain.specs.Spots.{spot_of, stops_at, comes_above, next_above};
ghost use Rattle.chain.specs.Walk.{trail};

use crate::link::{Ends, Link};
use crate::walk::Walk;
use duties::Duty;
use ordered::TotalOrder;

// Behind the row at `prev`, or first; before the row at `at`, which is the duty's own where it is held.
#[derive(Clone, Copy)]
pub(crate) struct Spot {
    pub(crate) prev: Option<usize>,
    pub(crate) at: usize,
}

fn is_before(row: &Link, d: Duty) -> bool
    ensures { result ≡ before row.now.duty d }
{
    row.duty.is_less(&d)
}

// At a row that is not before the duty.
fn stop_at(spot: Spot, row: &Link, d: Duty) -> Result<Spot, Spot>
    ensures { result ≡ stops_at spot row.now d }
{
    if d.is_less(&row.duty) {
        Err(spot)
    } else {
        Ok(spot)
    }
}

// Ok with the duty's own spot, or Err with the spot where it would go.
pub(crate) fn find(rows: &[Link], ends: Ends, d: Duty) -> Result<Spot, Spot>
    ensures { result ≡ spot_of rows.now d ends.head ends.count }
{
    let mut spot = Spot {
        prev: None,
        at: ends.head,
    };
    for row in Walk::new(rows, ends) {
        if !is_before(row, d) {
            return stop_at(spot, row, d);
        }
        spot = Spot {
            prev: Some(spot.at),
            at: row.next,
        };
    }
    Err(spot)
}

// Whether a duty is above the given one; any is, where none is given.
fn is_above(duty: &Duty, from: Option<Duty>) -> bool
    ensures { result ≡ comes_above from duty.now }
{
    from.is_none_or(|d| d.is_less(duty))
}

// The first duty above the given one.
pub(crate) fn first_above(rows: &[Link], ends: Ends, from: Option<Duty>) -> Option<Duty>
    ensures { result ≡ next_above from (map (λ row. row.duty) (trail rows.now ends.head ends.count)) }
{
    Walk::new(rows, ends)
        .map(|row| row.duty)
        .find(|duty| is_above(duty, from))
}
