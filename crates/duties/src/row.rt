use crate::duty::Duty;

// What became of a duty.
#[derive(Clone, Copy, PartialEq, Eq)]
pub enum Mark {
    Opened,
    Met,
    Failed,
    Lifted,
}

// A row of the slate, which is the journal of a watch: at this minute the duty was opened or closed so.
#[derive(Clone, Copy, PartialEq, Eq)]
pub struct Row {
    pub minute: u32,
    pub mark: Mark,
    pub duty: Duty,
}
