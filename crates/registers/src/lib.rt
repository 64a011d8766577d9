#![tactic(auto)]
// Registers: where a watch keeps the duties that are open, in memory of whatever make.
mod register;
mod stands;

pub use register::{Register, emptied};
pub use stands::{calls_have_one_outcome, members_make_the_set};
