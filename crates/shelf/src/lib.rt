#![tactic(auto)]
// A register that keeps its rows in duty order, and moves them.
mod shelf;

pub use shelf::Shelf;
