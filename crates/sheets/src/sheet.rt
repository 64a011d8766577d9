// A sheet: a table that is lawful, so that whoever is given a sheet has nothing to check.
ghost use Rattle.std.specs.Prelude.{◌≡◌, true};
ghost use Rattle.sheets.specs.Sheets.{content, lawful};

use crate::table::Table;

#[derive(Drop)]
pub struct Sheet {
    pub(crate) table: Table,
    ghost sound: { lawful (content table) ≡ true },
}
