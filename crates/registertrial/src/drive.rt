use crate::calls::{Call, Draw};
use crate::plain::{Key, Plain};
use registers::Register;
use std::alloc::{AllocError, Global};
use std::{fmt, iter};

const CALLS: usize = 4000;

const SEED: u64 = 0x2545_f491_4f6c_dd1d;

// What a trial came to.
#[derive(Clone, Copy, Default)]
pub(crate) struct Tally {
    calls: u32,
    refused: u32,
    // Answers that are not those of the plain set.
    differ: u32,
    sum: u64,
}

// An answer, and whether the plain set gave the same. Both are always there: one that differs counts in the checksum too, so this is no `Option`.
#[derive(Clone, Copy)]
struct Answer {
    told: u64,
    same: bool,
}

// What an answer adds to the checksum.
trait Told {
    fn told(&self) -> u64;
}

impl Told for bool {
    fn told(&self) -> u64 {
        u64::from(*self)
    }
}

impl Told for usize {
    fn told(&self) -> u64 {
        *self as u64
    }
}

impl Told for Option<Key> {
    fn told(&self) -> u64 {
        self.map_or(0, |k| u64::from(k.due) + 1)
    }
}

impl Answer {
    fn compared<T: Told + PartialEq + Drop>(answer: T, expected: T) -> Answer {
        Answer {
            told: answer.told(),
            same: answer == expected,
        }
    }
}

// One call on both.
fn make<R: Register>(
    register: &mut R,
    plain: &mut Plain,
    call: Call,
) -> Result<Answer, AllocError> {
    Ok(match call {
        Call::Enter(d) => {
            let expected = plain.enter(d.into())?;
            Answer::compared(register.enter(d), expected)
        }
        Call::Strike(d) => Answer::compared(register.strike(d), plain.strike(d.into())),
        Call::Held(d) => Answer::compared(register.held(d), plain.held(d.into())),
        Call::After(from) => Answer::compared(
            register.after(from).map(Key::from),
            plain.after(from.map(Key::from)),
        ),
        Call::Count => Answer::compared(register.count(), plain.count()),
        Call::Room => Answer::compared(register.room(), plain.room()),
        Call::Clear => {
            register.clear();
            plain.clear();
            Answer::compared(register.count(), 0)
        }
    })
}

// Whether both have the same duties, from the first on. One more than the plain set has shows that the register ends there too.
fn agree<R: Register>(register: &R, plain: &Plain) -> bool {
    iter::successors(register.after(None), |d| register.after(Some(*d)))
        .take(plain.count().saturating_add(1))
        .map(Key::from)
        .eq(plain.keys().iter().copied())
}

pub(crate) fn drive<R: Register>(heap: Global, register: &mut R) -> Result<Tally, AllocError> {
    let mut plain = Plain::new(heap, register.room());
    let mut tally = Tally::default();
    register.clear();
    for call in Draw::new(SEED).take(CALLS) {
        let answer = make(register, &mut plain, call)?;
        let same = answer.same && agree(register, &plain);
        tally.add(call, answer.told, same);
    }
    Ok(tally)
}

impl Tally {
    fn add(&mut self, call: Call, told: u64, same: bool) {
        let refused = matches!(call, Call::Enter(_)) && told == 0;
        self.calls = self.calls.saturating_add(1);
        self.refused = self.refused.saturating_add(u32::from(refused));
        self.differ = self.differ.saturating_add(u32::from(!same));
        self.sum = (self.sum ^ told)
            .wrapping_mul(0x0000_0100_0000_01b3)
            .rotate_left(5);
    }
}

impl fmt::Display for Tally {
    fn fmt<W: fmt::Write>(&self, f: &mut fmt::Formatter<W>) -> fmt::Result {
        let Tally {
            calls,
            refused,
            differ,
            sum,
        } = self;
        write!(
            f,
            "{calls} calls, {refused} refused, {differ} differ, checksum {sum:016x}"
        )
    }
}
