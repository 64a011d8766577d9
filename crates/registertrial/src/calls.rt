// The calls of the trial, drawn from a fixed seed: numbers that look random, and the same on every run.
ghost use Rattle.std.specs.Prelude.{◌<◌};

use duties::{Duty, Literal, TagSet, Task};

// A value, and no closure: it is drawn by numbers once, and made on the register and on the plain set.
#[derive(Clone, Copy)]
pub(crate) enum Call {
    Enter(Duty),
    Strike(Duty),
    Held(Duty),
    After(Option<Duty>),
    Count,
    Room,
    Clear,
}

#[derive(Drop)]
pub(crate) struct Draw {
    state: u64,
}

impl Draw {
    pub(crate) fn new(seed: u64) -> Draw {
        Draw { state: seed }
    }

    // A number below n.
    fn below(&mut self, n: u64) -> u64
        requires { 0 < n }
        ensures { result < n }
    {
        let mut x = self.state;
        x ^= x << 13;
        x ^= x >> 7;
        x ^= x << 17;
        self.state = x;
        (x >> 11) % n
    }

    // One of 288 duties, few enough that the same one comes again and again.
    fn duty(&mut self) -> Duty {
        let due = self.below(12) as u32 + 1;
        let kind = self.below(3);
        let asked = self.below(8);
        let point = (asked / 2) as u8;
        let literal = if asked % 2 == 0 {
            Literal::Is(point)
        } else {
            Literal::Not(point)
        };
        let task = match kind {
            0 => Task::Scan(TagSet(asked + 1)),
            1 => Task::Reach(literal),
            _ => Task::Hold(literal),
        };
        Duty { due, task }
    }

    fn call(&mut self) -> Call {
        let which = self.below(1000);
        let d = self.duty();
        match which {
            0..=399 => Call::Enter(d),
            400..=679 => Call::Strike(d),
            680..=799 => Call::Held(d),
            800..=929 => Call::After(Some(d)),
            930..=949 => Call::After(None),
            950..=969 => Call::Count,
            970..=997 => Call::Room,
            _ => Call::Clear,
        }
    }
}

// The draw has no end: whoever drives it takes as many calls as it wants.
impl Iterator for Draw {
    type Item = Call;

    fn next(&mut self) -> Option<Call> {
        Some(self.call())
    }
}
