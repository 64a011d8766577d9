// A sheet that is taken: how much it declares, and each order in plain words.
use duties::{Due, DutyPattern, Event, Literal, Order, Statement, TagSet, Task};
use names::Name;
use sheets::Sheet;
use std::{fmt, str};

// So many of something, which takes an `s` where it is not one.
#[derive(Clone, Copy)]
struct Counted(usize, &'static str);

impl fmt::Display for Counted {
    fn fmt<W: fmt::Write>(&self, f: &mut fmt::Formatter<W>) -> fmt::Result {
        let Counted(n, noun) = self;
        let plural = if *n == 1 { "" } else { "s" };
        write!(f, "{n} {noun}{plural}")
    }
}

// A name by its number; a number without a name prints as itself.
#[derive(Clone, Copy)]
struct Named<'a> {
    names: &'a [Name],
    number: u8,
}

impl fmt::Display for Named<'_> {
    fn fmt<W: fmt::Write>(&self, f: &mut fmt::Formatter<W>) -> fmt::Result {
        let number = self.number;
        // A declared name is always text: letters, digits and `_`.
        let name = self.names.get(number as usize);
        match name.and_then(|name| str::from_utf8(name.bytes()).ok()) {
            Some(text) => f.write_str(text),
            None => write!(f, "{number}"),
        }
    }
}

// A part of a sheet, which prints with the sheet's names.
#[derive(Clone, Copy)]
struct Told<'a, T> {
    sheet: &'a Sheet,
    part: T,
}

impl<'a, T> Told<'a, T> {
    // Another part of the same sheet.
    fn with<U>(&self, part: U) -> Told<'a, U> {
        Told {
            sheet: self.sheet,
            part,
        }
    }

    fn point(&self, literal: Literal) -> Named<'a> {
        Named {
            names: self.sheet.points(),
            number: literal.point(),
        }
    }
}

fn is_several(set: TagSet) -> bool {
    set.0.count_ones() > 1
}

// The tags of a set in number order.
impl fmt::Display for Told<'_, TagSet> {
    fn fmt<W: fmt::Write>(&self, f: &mut fmt::Formatter<W>) -> fmt::Result {
        let set = self.part;
        let names = self.sheet.tags();
        let tags = (0u8..64)
            .filter(|n| set.has(*n))
            .map(|number| Named { names, number });
        f.write_joined(tags, " and ")
    }
}

impl fmt::Display for Told<'_, Task> {
    fn fmt<W: fmt::Write>(&self, f: &mut fmt::Formatter<W>) -> fmt::Result {
        match self.part {
            Task::Scan(set) => {
                let tags = self.with(set);
                let together = if is_several(set) { " together" } else { "" };
                write!(f, "to read {tags}{together}")
            }
            Task::Reach(literal) => {
                let point = self.point(literal);
                let value = !literal.is_denied();
                write!(f, "to make {point} {value}")
            }
            Task::Hold(literal) => {
                let point = self.point(literal);
                let value = !literal.is_denied();
                write!(f, "to keep {point} {value}")
            }
        }
    }
}

impl fmt::Display for Told<'_, Due> {
    fn fmt<W: fmt::Write>(&self, f: &mut fmt::Formatter<W>) -> fmt::Result {
        match self.part {
            Due::At(minute) => write!(f, "due at minute {minute}"),
            Due::Now(0) => write!(f, "due now"),
            Due::Now(added) => {
                let minutes = Counted(added as usize, "minute");
                write!(f, "due {minutes} from now")
            }
            Due::Then(0) => write!(f, "due at T"),
            Due::Then(added) => {
                let minutes = Counted(added as usize, "minute");
                write!(f, "due {minutes} after T")
            }
        }
    }
}

impl fmt::Display for Told<'_, DutyPattern> {
    fn fmt<W: fmt::Write>(&self, f: &mut fmt::Formatter<W>) -> fmt::Result {
        let task = self.with(self.part.task);
        let due = self.with(self.part.due);
        write!(f, "duty {task}, {due}")
    }
}

impl fmt::Display for Told<'_, Event> {
    fn fmt<W: fmt::Write>(&self, f: &mut fmt::Formatter<W>) -> fmt::Result {
        match self.part {
            Event::Tags(set) => {
                let tags = self.with(set);
                if is_several(set) {
                    write!(f, "{tags} are read together")
                } else {
                    write!(f, "{tags} is read")
                }
            }
            Event::Met(duty) => {
                let duty = self.with(duty);
                write!(f, "a {duty}, is met")
            }
            Event::Failed(duty) => {
                let duty = self.with(duty);
                write!(f, "a {duty}, fails")
            }
        }
    }
}

// What an order asks of the state before it.
#[derive(Clone, Copy)]
struct Condition(Statement);

impl fmt::Display for Told<'_, Condition> {
    fn fmt<W: fmt::Write>(&self, f: &mut fmt::Formatter<W>) -> fmt::Result {
        match self.part.0 {
            Statement::Literal(literal) => {
                let point = self.point(literal);
                let value = !literal.is_denied();
                write!(f, "{point} is {value}")
            }
            Statement::Duty(duty) => {
                let duty = self.with(duty);
                write!(f, "a {duty}, is open")
            }
            Statement::NoDuty(duty) => {
                let duty = self.with(duty);
                write!(f, "no {duty}, is open")
            }
        }
    }
}

// What an order brings about.
#[derive(Clone, Copy)]
struct Effect(Statement);

impl fmt::Display for Told<'_, Effect> {
    fn fmt<W: fmt::Write>(&self, f: &mut fmt::Formatter<W>) -> fmt::Result {
        match self.part.0 {
            Statement::Literal(literal) => {
                let point = self.point(literal);
                let value = !literal.is_denied();
                write!(f, "{point} becomes {value}")
            }
            Statement::Duty(duty) => {
                let duty = self.with(duty);
                write!(f, "there is a {duty}")
            }
            Statement::NoDuty(duty) => {
                let duty = self.with(duty);
                write!(f, "any {duty}, is lifted")
            }
        }
    }
}

impl fmt::Display for Told<'_, Order> {
    fn fmt<W: fmt::Write>(&self, f: &mut fmt::Formatter<W>) -> fmt::Result {
        let event = self.with(self.part.event);
        write!(f, "When {event}")?;
        for statement in self.part.conditions.iter().flatten() {
            let condition = self.with(Condition(*statement));
            write!(f, ", and if {condition}")?;
        }
        let effect = self.with(Effect(self.part.effect));
        write!(f, ": {effect}.")
    }
}

// Whether T stands in an order, which then has to be explained.
fn has_t(order: &Order) -> bool {
    order.event.has_t()
        || order.effect.has_t()
        || order
            .conditions
            .iter()
            .flatten()
            .any(|condition| condition.has_t())
}

// Prints the first line, then the orders. A number in front of each is the one that the order has.
#[derive(Clone, Copy)]
pub(crate) struct Taken<'a>(pub(crate) &'a Sheet);

impl fmt::Display for Taken<'_> {
    fn fmt<W: fmt::Write>(&self, f: &mut fmt::Formatter<W>) -> fmt::Result {
        let sheet = self.0;
        let tags = sheet.tags().len();
        let points = sheet.points().len();
        let orders = sheet.orders();
        writeln!(f, "taken\t{tags}\t{points}\t{}", orders.len())?;
        let tags = Counted(tags, "tag");
        let points = Counted(points, "point");
        let count = Counted(orders.len(), "order");
        writeln!(f, "The sheet is good: {tags}, {points}, {count}.")?;
        for (i, order) in orders.iter().enumerate() {
            let order = Told {
                sheet,
                part: *order,
            };
            writeln!(f, "{i}. {order}")?;
        }
        if !orders.is_empty() {
            writeln!(
                f,
                "A duty has to be done before the minute at which it is due."
            )?;
        }
        if orders.iter().any(has_t) {
            writeln!(f, "T is any one minute, the same throughout its order.")?;
        }
        Ok(())
    }
}
