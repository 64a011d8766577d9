ghost use Rattle.std.specs.Prelude.{◌≡◌, ◌+◌, min, true, false, [], length, Decides, nat_le};
ghost use Rattle.ordered.specs.Ascending.{◌∈◌, union};
ghost use Rattle.duties.specs.Duties.{before};
ghost use Rattle.pair.specs.Lesser.{lesser};
ghost use Rattle.pair.specs.Parted.{scan, Parted};

use duties::{Duty, Task};
use registers::{Register, emptied};

// Two registers as one: the first has the scan duties, the second the others, and its room is the smaller of theirs.
#[derive(Drop)]
pub struct Pair<A: Register, B: Register> {
    first: A,
    second: B,
    pub ghost parted: { Parted (A.Register.duties first) (B.Register.duties second) (min (A.Register.places first) (B.Register.places second)) },
}

// Which of the two a duty belongs to: the first has those that ask for a scan.
fn is_scan(d: Duty) -> bool
    ensures { result ≡ scan d }
{
    matches!(d.task, Task::Scan(_))
}

// The lesser of two, of which each may be missing.
#[tactic(auto, using(crate::proofs::Mins::some_min))]
fn lesser_of(a: Option<Duty>, b: Option<Duty>) -> Option<Duty>
    ensures { result ≡ lesser a b }
{
    match (a, b) {
        (Some(d), Some(e)) => Some(d.min(e)),
        _ => a.or(b),
    }
}

impl<A: Register, B: Register> Pair<A, B> {
    // Empties both.
    pub fn new(first: A, second: B) -> Pair<A, B>
        ensures none { ⟦<Self as Register>⟧.duties result ≡ [] }
        ensures room { ⟦<Self as Register>⟧.places result ≡ min (A.Register.places first) (B.Register.places second) }
        ensures spares { (A.Register.spares first result.first) × (B.Register.spares second result.second) }
    {
        Pair {
            first: emptied(first),
            second: emptied(second),
        }
    }

    // Whether the part that the duty belongs to has it.
    fn part_holds(&self, d: Duty) -> bool
        ensures first { scan d ≡ true → Decides result (d ∈ A.Register.duties self.now.first) }
        ensures second { scan d ≡ false → Decides result (d ∈ B.Register.duties self.now.second) }
    {
        if is_scan(d) {
            self.first.held(d)
        } else {
            self.second.held(d)
        }
    }

    // How many duties the two have: no more than fit a room.
    fn sum_of_counts(&self) -> usize
        ensures { result ≡ length (A.Register.duties self.now.first) + length (B.Register.duties self.now.second) }
    {
        self.first.count() + self.second.count()
    }

    // Whether there is no room for another, although a part may have places left.
    fn is_full(&self) -> bool
        ensures { result ≡ nat_le (⟦<Self as Register>⟧.places self.now) (length (⟦<Self as Register>⟧.duties self.now)) }
    {
        self.count() >= self.room()
    }
}

impl<A: Register, B: Register> Register for Pair<A, B> {
    ghost duties = { λ p. union before (A.Register.duties p.first) (B.Register.duties p.second) };

    ghost places = { λ p. min (A.Register.places p.first) (B.Register.places p.second) };

    ghost spares = { λ p q. (A.Register.spares p.first q.first) × (B.Register.spares p.second q.second) };

    ghost lawful = { λ p. p.parted.lawful };

    ghost carries = { record { itself = λ p. (A.Register.carries.itself p.first, B.Register.carries.itself p.second); on = λ p q r s t. (A.Register.carries.on p.first q.first r.first s.0 t.0, B.Register.carries.on p.second q.second r.second s.1 t.1) } };

    fn held(&self, d: Duty) -> bool {
        self.part_holds(d)
    }

    fn count(&self) -> usize {
        self.sum_of_counts()
    }

    fn room(&self) -> usize {
        self.first.room().min(self.second.room())
    }

    fn after(&self, from: Option<Duty>) -> Option<Duty> {
        lesser_of(self.first.after(from), self.second.after(from))
    }

    fn enter(&mut self, d: Duty) -> bool {
        if self.is_full() {
            return self.held(d);
        }
        if is_scan(d) {
            self.first.enter(d)
        } else {
            self.second.enter(d)
        }
    }

    fn strike(&mut self, d: Duty) -> bool {
        if is_scan(d) {
            self.first.strike(d)
        } else {
            self.second.strike(d)
        }
    }

    fn clear(&mut self) {
        self.first.clear();
        self.second.clear();
    }
}
