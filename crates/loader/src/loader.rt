use sheets::Table;

// Holds the memory that a text is read into, so that loading asks for none.
#[derive(Drop)]
pub struct Loader {
    pub(crate) table: Table,
}
