ghost use Rattle.std.specs.Prelude.{◌≡◌, ◌≤◌, [], min, length};
ghost use Rattle.std.proofs.Common.{rules};
ghost use Rattle.ordered.specs.Rows.{items, capacity};
ghost use Rattle.registers.specs.Meaning.{SpareRowsLeftOpen};
ghost use Rattle.registers.proofs.Spares.{left_open_carries};

use duties::Duty;
use ordered::OrderedRows;
use registers::Register;

// Keeps duties in the caller's rows, in duty order from the first row on, at most 64.
#[derive(Drop)]
pub struct Shelf<'a> {
    rows: OrderedRows<'a, Duty>,
    pub ghost few: { length (items rows) ≤ 64 },
}

impl<'a> Shelf<'a> {
    // As much room as rows, at most 64. It is empty, whatever the rows held.
    pub fn new(rows: &'a mut [Duty]) -> Shelf<'a>
        ensures none { items result.rows ≡ [] }
        ensures room { min (capacity result.rows) 64 ≡ min (length rows.old) 64 }
        ensures rows { result.rows.rows.now ≡ rows.old }
    {
        Shelf {
            rows: OrderedRows::new(rows),
        }
    }
}

impl<'a> Register for Shelf<'a> {
    ghost duties = { λ s. items s.rows };

    ghost places = { λ s. min (capacity s.rows) 64 };

    ghost lawful = { λ s. record { ascending = s.rows.ascending; fits = Prim.search rules; small = Prim.search rules } };

    ghost spares = { λ s t. SpareRowsLeftOpen s.rows.rows.now t.rows.rows.now };

    ghost carries = { left_open_carries (λ s. s.rows.rows.now) };

    fn held(&self, d: Duty) -> bool {
        self.rows.holds(d)
    }

    fn count(&self) -> usize {
        self.rows.count()
    }

    fn room(&self) -> usize {
        self.rows.room().min(64)
    }

    fn after(&self, from: Option<Duty>) -> Option<Duty> {
        match from {
            Some(d) => self.rows.after(d),
            None => self.rows.first(),
        }
    }

    fn enter(&mut self, d: Duty) -> bool {
        self.rows.insert_up_to(64, d)
    }

    fn strike(&mut self, d: Duty) -> bool {
        self.rows.remove(d)
    }

    fn clear(&mut self) {
        self.rows.clear();
    }
}
