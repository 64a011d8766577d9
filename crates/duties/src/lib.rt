#![tactic(auto)]
// The words of the subject, as plain values: tags and points, duties, orders and rows.
// A number that comes from outside may be anything its type admits; the definitions in specs/ say which are in range.
mod duty;
mod duty_order;
mod literal_order;
mod order;
mod row;
mod sets;
mod stands;
#[cfg(test)]
mod tests;

pub use duty::{Duty, Literal, Task};
pub use order::{Due, DutyPattern, Event, Order, Statement};
pub use row::{Mark, Row};
pub use sets::{PointSet, TagSet};
pub use stands::duties_are_totally_ordered;
