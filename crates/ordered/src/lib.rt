#![tactic(auto)]
// Rows of a caller's slice, kept in the order of their type, and the last row with a given key.
mod find;
mod order;
mod places;
mod rows;

pub use find::{Keyed, find_last};
pub use order::TotalOrder;
pub use rows::OrderedRows;
