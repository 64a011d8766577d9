ghost use Rattle.std.specs.Prelude.{◌≡◌, ℕ, false, ◌⊎◌, List, [], length, Decides};
ghost use Rattle.ordered.specs.Ascending.{◌∈◌, Above, LeastSuch};
ghost use Rattle.ordered.specs.Changes.{Entered, Struck};
ghost use Rattle.duties.specs.Duties.{before};
ghost use Rattle.duties.specs.declared.duty.Duty.{Duty};
ghost use Rattle.registers.specs.Meaning.{Lawful, CarriesOver};

use duties::Duty;

// A register means a set of duties and a room, which is fixed. What it means is all that its calls promise to whoever is above them.
// Its memory is always in order: a new register of any make is empty, whatever the memory held, and every call leaves it in order.
// What a call leaves as it was is promised by each call (`unchanged`, `room`, `spares`): it is about before and after, so no type can keep it.
pub trait Register {
    // The set, strictly ascending in the order of duties.
    ghost duties: { Self → List Duty };

    // The room: how many duties the set may have.
    ghost places: { Self → ℕ };

    // What a call may do to the memory beside the set: what is still required of the spare rows when one register becomes the other.
    ghost spares: { Self → Self → Type 0 };

    // Whether the duty is in the set.
    fn held(&self, d: Duty) -> bool
        ensures { Decides result (d ∈ duties self.now) };

    // How many duties the set has.
    fn count(&self) -> usize
        ensures { result ≡ length (duties self.now) };

    fn room(&self) -> usize
        ensures { result ≡ places self.now };

    // The least duty above the given one, or the least of all where none is given.
    fn after(&self, from: Option<Duty>) -> Option<Duty>
        ensures { LeastSuch before (Above before from) (duties self.now) result };

    // Adds a duty. False where there is no room for another; one already held is no other.
    fn enter(&mut self, d: Duty) -> bool
        ensures does { Entered d result (duties self.old) (duties self.new) (places self.old) }
        ensures unchanged { (result ≡ false) ⊎ (d ∈ duties self.old) → self.new ≡ self.old }
        ensures room { places self.new ≡ places self.old }
        ensures spares { spares self.old self.new };

    // Removes a duty, and answers whether it was there.
    fn strike(&mut self, d: Duty) -> bool
        ensures does { Struck d result (duties self.old) (duties self.new) }
        ensures unchanged { result ≡ false → self.new ≡ self.old }
        ensures room { places self.new ≡ places self.old }
        ensures spares { spares self.old self.new };

    // Removes every duty.
    fn clear(&mut self)
        ensures none { duties self.new ≡ [] }
        ensures room { places self.new ≡ places self.old }
        ensures spares { spares self.old self.new };

    // What a make has to prove: the set of every register ascends and fits its room, which is at most 64.
    ghost lawful: { (s : Self) → Lawful (duties s) (places s) };

    ghost carries: { CarriesOver spares };
}

// The register with no duty in it, whatever it held.
pub fn emptied<R: Register>(mut register: R) -> R
    ensures none { R.duties result ≡ [] }
    ensures room { R.places result ≡ R.places register }
    ensures spares { R.spares register result }
{
    register.clear();
    register
}
