// What is wrong with a word.
#[derive(Clone, Copy)]
pub enum Cause {
    // The field has not its shape, or a name in it is ill-formed or reserved.
    Shape,
    // The name is not declared above as its place needs.
    Undeclared,
    // The number is over its limit.
    Over,
}

// A word's fault, made with the field that the word stands in, counted from 1.
#[derive(Clone, Copy)]
pub struct WordFault {
    pub field: usize,
    pub cause: Cause,
}
