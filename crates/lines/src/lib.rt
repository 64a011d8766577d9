#![tactic(auto)]
// A line of a sheet: the declaration of a tag, of a point or of an order.
mod conditions;
mod fault;
mod line;
mod order_line;
mod orders;

pub use fault::LineCause;
pub use line::Draft;
