#![tactic(auto)]
// That registers of every make work: fresh ones take a duty and give it back. So what a register means is not empty.
mod fresh;
mod works;

pub use fresh::{
    a_fresh_chain_works, a_fresh_pair_of_pairs_works, a_fresh_pair_works, a_fresh_shelf_works,
};
