// Loaders, made and used.
ghost use Rattle.std.specs.Prelude.{◌≡◌, true, IfOk, Ok as Good, Err as Bad, MatchResult};
ghost use Rattle.sheets.specs.Filled.{sheet_content};
ghost use Rattle.sheets.specs.Sheets.{blank, content, lawful};
ghost use Rattle.verdicts.specs.Declares.{Declares};
ghost use Rattle.verdicts.specs.Refused.{Refused};
ghost use Rattle.verdicts.specs.Texts.{meaning};

use crate::checks::{check_bytes, check_end};
use crate::lines_of::read_table;
use crate::loader::Loader;
use sheets::{Sheet, Table};
use std::alloc::{AllocError, Global};
use verdicts::LoadFault;

// What the text means, built whole in the table.
fn build(table: &mut Table, text: &[u8]) -> Result<(), LoadFault>
    ensures { MatchResult result (λ _. (meaning text.now ≡ Good (content table.new)) × (lawful (content table.new) ≡ true)) (λ e. meaning text.now ≡ Bad e) }
{
    if text.len() > 32768 {
        return Err(LoadFault::TooLong);
    }
    check_bytes(text)?;
    check_end(text)?;
    read_table(table, text)
}

impl Loader {
    // A loader with memory for the largest sheet. Only this, and the making of a sheet, can want memory.
    pub fn new(heap: Global) -> Result<Loader, AllocError>
        ensures { IfOk result (λ l. content l.table ≡ blank) }
    {
        let table = Table::new(heap)?;
        Ok(Loader { table })
    }

    // The table is built whole before the sheet is touched.
    fn fill(&mut self, text: &[u8], sheet: &mut Sheet) -> Result<(), LoadFault>
        ensures { MatchResult result (λ _. meaning text.now ≡ Good (sheet_content sheet.new)) (λ e. (meaning text.now ≡ Bad e) × (sheet.new ≡ sheet.old)) }
    {
        build(&mut self.table, text)?;
        sheet.exchange(&mut self.table);
        Ok(())
    }

    // The sheet that the text declares goes into the caller's sheet; where the text is refused, that stays as it was.
    pub fn load(&mut self, text: &[u8], sheet: &mut Sheet) -> Result<(), LoadFault>
        ensures { MatchResult result (λ _. Declares text.now (sheet_content sheet.new)) (λ e. Refused text.now e × (sheet.new ≡ sheet.old)) }
    {
        self.fill(text, sheet)
    }
}
