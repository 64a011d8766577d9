#![tactic(auto)]
// Two registers as one.
mod pair;

pub use pair::Pair;
