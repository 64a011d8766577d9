#![tactic(auto)]
// The parts of a sheet's text: pieces between separators, and in a word names, numbers and key words.
mod number;
mod piece;
mod pieces;
mod token;

pub use number::value_up_to;
pub use piece::{after, cut};
pub use pieces::Pieces;
pub use token::{Keyword, Token, Tokens, classify};
