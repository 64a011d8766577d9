#![tactic(auto)]
// Names of tags and points, as small plain values, and their order.
mod name;
mod name_order;
mod stands;

pub use name::Name;
pub use stands::names_are_totally_ordered;
