ghost use Rattle.std.specs.Prelude.{◌≡◌, ℕ, ◌<◌, ◌≤◌, min, false, ◌⊎◌, [], length, IfOk, MatchBool, Some};
ghost use Rattle.ordered.specs.Ascending.{◌∈◌};
ghost use Rattle.ordered.specs.Changes.{Entered, Struck};
ghost use Rattle.registers.specs.Meaning.{SpareRowsLeftOpen};
ghost use Rattle.registers.proofs.Spares.{left_open_carries};
ghost use Rattle.chain.specs.Spots.{spot_of, spot_in};
ghost use Rattle.chain.specs.Walk.{Linked, Linked_prop, NoRowMoves, chained, room_of};

use crate::find::{Spot, find, first_above};
use crate::link::{Ends, Link, room_of};
use crate::relink::{free_all, link_in, take_out};
use duties::Duty;
use registers::Register;

// Keeps duties in the caller's rows, and moves none of them.
#[derive(Drop)]
pub struct Chain<'a> {
    rows: &'a mut [Link],
    ends: Ends,
    // Every chain is in order, so no call has to ask for it.
    pub ghost linked: { Linked rows.now ends } by { Linked_prop rows.now ends },
}

impl<'a> Chain<'a> {
    // As much room as rows, at most 64. It is empty, whatever the rows held.
    pub fn new(rows: &'a mut [Link]) -> Chain<'a>
        ensures none { chained result.rows.now result.ends ≡ [] }
        ensures room { room_of result.rows.now ≡ min (length rows.old) 64 }
        ensures spares { SpareRowsLeftOpen rows.old result.rows.now }
    {
        let ends = free_all(rows);
        Chain { rows, ends }
    }

    // Ok with a duty's own spot, or Err with the spot where it would go.
    fn find(&self, d: Duty) -> Result<Spot, Spot>
        ensures spot { result ≡ spot_of self.now.rows.now d self.now.ends.head self.now.ends.count }
        ensures prev { (p : ℕ) → (spot_in result).prev ≡ Some p → p < length self.now.rows.now }
        ensures own { IfOk result (λ s. (s.at < length self.now.rows.now) × (0 < self.now.ends.count)) }
    {
        find(self.rows, self.ends, d)
    }

    fn is_full(&self) -> bool
        ensures { MatchBool result (room_of self.now.rows.now ≤ self.now.ends.count) (self.now.ends.count < room_of self.now.rows.now) }
    {
        self.ends.count >= room_of(self.rows)
    }
}

impl<'a> Register for Chain<'a> {
    ghost duties = { λ s. chained s.rows.now s.ends };

    ghost places = { λ s. room_of s.rows.now };

    ghost lawful = { λ s. s.linked.lawful };

    ghost spares = { λ s t. SpareRowsLeftOpen s.rows.now t.rows.now };

    ghost carries = { left_open_carries (λ s. s.rows.now) };

    fn held(&self, d: Duty) -> bool {
        self.find(d).is_ok()
    }

    fn count(&self) -> usize {
        self.ends.count
    }

    fn room(&self) -> usize {
        room_of(self.rows)
    }

    fn after(&self, from: Option<Duty>) -> Option<Duty> {
        first_above(self.rows, self.ends, from)
    }

    // What a register promises, and that no row moves. The clauses are said in full, since they stand in place of the trait's.
    fn enter(&mut self, d: Duty) -> bool
        ensures does { Entered d result (chained self.old.rows.now self.old.ends) (chained self.new.rows.now self.new.ends) (room_of self.old.rows.now) }
        ensures unchanged { (result ≡ false) ⊎ (d ∈ chained self.old.rows.now self.old.ends) → self.new ≡ self.old }
        ensures room { room_of self.new.rows.now ≡ room_of self.old.rows.now }
        ensures spares { SpareRowsLeftOpen self.old.rows.now self.new.rows.now }
        ensures still { NoRowMoves self.old.rows.now self.old.ends self.new.rows.now self.new.ends }
    {
        let Err(spot) = self.find(d) else {
            return true;
        };
        if self.is_full() {
            return false;
        }
        self.ends = link_in(self.rows, self.ends, spot, d);
        true
    }

    // What a register promises, and that no row moves.
    fn strike(&mut self, d: Duty) -> bool
        ensures does { Struck d result (chained self.old.rows.now self.old.ends) (chained self.new.rows.now self.new.ends) }
        ensures unchanged { result ≡ false → self.new ≡ self.old }
        ensures room { room_of self.new.rows.now ≡ room_of self.old.rows.now }
        ensures spares { SpareRowsLeftOpen self.old.rows.now self.new.rows.now }
        ensures still { NoRowMoves self.old.rows.now self.old.ends self.new.rows.now self.new.ends }
    {
        let Ok(spot) = self.find(d) else {
            return false;
        };
        self.ends = take_out(self.rows, self.ends, spot);
        true
    }

    fn clear(&mut self) {
        self.ends = free_all(self.rows);
    }
}
