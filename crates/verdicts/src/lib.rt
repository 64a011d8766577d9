#![tactic(auto)]
// What a text of orders comes to: the sheet that its lines declare, or a refusal, and that it is one of these and never both.
mod fault;
mod refusal;
mod stands;

pub use fault::{LineFault, LoadFault};
pub use stands::{
    a_refusal_is_the_first_cause, a_text_is_taken_as_what_its_lines_declare,
    every_text_has_one_answer,
};
