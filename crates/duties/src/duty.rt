use crate::sets::TagSet;

// A point, by its number, that holds, or that does not.
#[derive(Clone, Copy, PartialEq, Eq)]
pub enum Literal {
    Is(u8),
    Not(u8),
}

// What a duty asks for before its due minute.
#[derive(Clone, Copy, PartialEq, Eq, PartialOrd, Ord)]
pub enum Task {
    // That the tags are all read in one step.
    Scan(TagSet),
    // That the literal becomes true.
    Reach(Literal),
    // That the literal stays true.
    Hold(Literal),
}

// A duty: what a guard owes, and the minute that it is due at.
#[derive(Clone, Copy, PartialEq, Eq, PartialOrd, Ord)]
pub struct Duty {
    pub due: u32,
    pub task: Task,
}
