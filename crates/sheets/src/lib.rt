#![tactic(auto)]
// Sheets of orders. A table holds tags, points and orders; a sheet is a table that is lawful.
mod building;
mod sheet;
mod sheets;
mod table;

pub use sheet::Sheet;
pub use table::Table;
