#![tactic(auto)]
// The fields of an order: dues, sets, literals, duties, events and statements, read against the names that are declared.
mod due;
mod duty;
mod event;
mod fault;
mod literal;
mod name_list;
mod set;

pub use fault::{Cause, WordFault};
pub use name_list::{Declared, NameList};
