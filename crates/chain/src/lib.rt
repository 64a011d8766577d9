#![tactic(auto)]
// A register whose rows never move: each names the next one in duty order, and struck rows are used again.
mod chain;
mod find;
mod link;
mod relink;
#[cfg(test)]
mod tests;
mod walk;

pub use chain::Chain;
pub use link::Link;
