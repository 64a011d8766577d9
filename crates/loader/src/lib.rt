#![tactic(auto)]
// Loading a sheet: a text is taken as the sheet that its lines declare, or refused by a number, a line and a field.
mod checks;
mod lines_of;
mod load;
mod loader;

pub use loader::Loader;
