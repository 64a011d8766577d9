ghost use Rattle.std.specs.Prelude.{◌≡◌};
ghost use Rattle.duties.specs.Ranges.{duty_event, duty_statement, event_on_t, on_t, statement_on_t};

use crate::duty::{Literal, Task};
use crate::sets::TagSet;

// A due in an order. A step's own minute is `now`; T is any one minute, the same throughout the order.
#[derive(Clone, Copy, PartialEq, Eq)]
pub enum Due {
    // This minute.
    At(u32),
    // So many minutes after now.
    Now(u32),
    // So many minutes after T.
    Then(u32),
}

// A duty in an order: it is a duty once now and T are known. It is no `Duty` over a type parameter: the two are told apart in every contract, and no code is said twice.
#[derive(Clone, Copy, PartialEq, Eq)]
pub struct DutyPattern {
    pub due: Due,
    pub task: Task,
}

// What an order waits for.
#[derive(Clone, Copy, PartialEq, Eq)]
pub enum Event {
    // A read of all these tags.
    Tags(TagSet),
    // That a duty is met, or fails.
    Met(DutyPattern),
    Failed(DutyPattern),
}

// What an order brings about (its effect) or asks of the state before it (a condition): a literal, a duty, or that there is no such duty.
#[derive(Clone, Copy, PartialEq, Eq)]
pub enum Statement {
    Literal(Literal),
    Duty(DutyPattern),
    NoDuty(DutyPattern),
}

// An order: at its event, if its conditions hold, its effect comes about. The conditions fill the places from the first on; the places are
// fixed, and no `Vec`, since a sheet's memory is reserved when it is made.
#[derive(Clone, Copy, PartialEq, Eq)]
pub struct Order {
    pub event: Event,
    pub effect: Statement,
    pub conditions: [Option<Statement>; 4],
}

impl Due {
    // Whether T stands in it.
    pub fn has_t(self) -> bool
        ensures { result ≡ on_t self }
    {
        matches!(self, Due::Then(_))
    }
}

impl Event {
    // Whether it is what becomes of a duty.
    pub fn is_of_duty(self) -> bool
        ensures { result ≡ duty_event self }
    {
        matches!(self, Event::Met(_) | Event::Failed(_))
    }

    pub fn has_t(self) -> bool
        ensures { result ≡ event_on_t self }
    {
        match self {
            Event::Tags(_) => false,
            Event::Met(duty) | Event::Failed(duty) => duty.due.has_t(),
        }
    }
}

impl Statement {
    // Whether it speaks of a duty.
    pub fn is_of_duty(self) -> bool
        ensures { result ≡ duty_statement self }
    {
        matches!(self, Statement::Duty(_) | Statement::NoDuty(_))
    }

    pub fn has_t(self) -> bool
        ensures { result ≡ statement_on_t self }
    {
        match self {
            Statement::Literal(_) => false,
            Statement::Duty(duty) | Statement::NoDuty(duty) => duty.due.has_t(),
        }
    }
}
