// What entering, striking and clearing do to the rows of a chain, and to its ends.
// That a spot lies within the rows is a fact about two values, the spot and the rows, so no type can keep it: it stands as a premise.
// These are no methods of `Chain`: a method would use the whole chain, which is out of order in between.
ghost use Rattle.std.specs.Prelude.{◌≡◌, ℕ, ◌<◌, [], length, Some};
ghost use Rattle.registers.specs.Meaning.{SpareRowsLeftOpen};
ghost use Rattle.chain.specs.Links.{aimed_from, begins, linked_in, ends_with, taken_out, ends_without, Strung};
ghost use Rattle.chain.specs.Walk.{row_at, chained, Linked};

use crate::find::Spot;
use crate::link::{Ends, Link, room_of};
use duties::Duty;

// The row that comes before names the row at `to`, where there is one.
fn aim_from(rows: &mut [Link], prev: Option<usize>, to: usize)
    requires { (p : ℕ) → prev ≡ Some p → p < length rows.old }
    ensures { rows.new ≡ aimed_from rows.old prev to }
{
    if let Some(p) = prev {
        rows[p].next = to;
    }
}

// Where the chain then begins.
fn begin(prev: Option<usize>, to: usize, head: usize) -> usize
    ensures { result ≡ begins prev to head }
{
    match prev {
        None => to,
        Some(_) => head,
    }
}

// The first free row takes the duty, at its spot.
pub(crate) fn link_in(rows: &mut [Link], ends: Ends, spot: Spot, d: Duty) -> Ends
    requires prev { (p : ℕ) → spot.prev ≡ Some p → p < length rows.old }
    requires free { ends.free < length rows.old }
    requires room { ends.count < 64 }
    ensures rows { rows.new ≡ linked_in rows.old spot.prev ends.free spot.at d }
    ensures ends { result ≡ ends_with ends spot.prev ends.free (row_at rows.old ends.free).next }
{
    let rest = rows[ends.free].next;
    rows[ends.free] = Link {
        duty: d,
        next: spot.at,
    };
    aim_from(rows, spot.prev, ends.free);
    Ends {
        head: begin(spot.prev, ends.free, ends.head),
        free: rest,
        count: ends.count + 1,
    }
}

// The row at the spot leaves its place, and becomes the first of the free rows.
pub(crate) fn take_out(rows: &mut [Link], ends: Ends, spot: Spot) -> Ends
    requires prev { (p : ℕ) → spot.prev ≡ Some p → p < length rows.old }
    requires there { spot.at < length rows.old }
    requires some { 0 < ends.count }
    ensures rows { rows.new ≡ taken_out rows.old spot.prev spot.at ends.free }
    ensures ends { result ≡ ends_without ends spot.prev spot.at (row_at rows.old spot.at).next }
{
    let to = rows[spot.at].next;
    aim_from(rows, spot.prev, to);
    rows[spot.at].next = ends.free;
    Ends {
        head: begin(spot.prev, to, ends.head),
        free: spot.at,
        count: ends.count - 1,
    }
}

// Each row of the room names the one after it.
fn string_up(rows: &mut [Link])
    ensures strung { Strung rows.new }
    ensures spares { SpareRowsLeftOpen rows.old rows.new }
{
    let room = room_of(rows);
    for (p, row) in rows[..room].iter_mut().enumerate() {
        row.next = p + 1;
    }
}

// No duty, and every row of the room free, whatever the rows held.
pub(crate) fn free_all(rows: &mut [Link]) -> Ends
    ensures none { chained rows.new result ≡ [] }
    ensures sound { Linked rows.new result }
    ensures spares { SpareRowsLeftOpen rows.old rows.new }
{
    string_up(rows);
    Ends {
        head: 0,
        free: 0,
        count: 0,
    }
}
