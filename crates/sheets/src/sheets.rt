// Sheets, made and filled.
ghost use Rattle.std.specs.Prelude.{◌≡◌, true, IfOk};
ghost use Rattle.sheets.specs.Filled.{sheet_content};
ghost use Rattle.sheets.specs.Sheets.{blank, content, lawful};

use crate::sheet::Sheet;
use crate::table::Table;
use duties::Order;
use names::Name;
use std::alloc::{AllocError, Global};
use std::mem::swap;

// One method for each kind, as in `Table`.
impl Sheet {
    // A sheet with no tags, points or orders.
    pub fn new(heap: Global) -> Result<Sheet, AllocError>
        ensures { IfOk result (λ s. sheet_content s ≡ blank) }
    {
        let table = Table::new(heap)?;
        Ok(Sheet { table })
    }

    pub fn tags(&self) -> &[Name]
        ensures { result.now ≡ (sheet_content self.now).tags }
    {
        self.table.tags()
    }

    pub fn points(&self) -> &[Name]
        ensures { result.now ≡ (sheet_content self.now).points }
    {
        self.table.points()
    }

    pub fn orders(&self) -> &[Order]
        ensures { result.now ≡ (sheet_content self.now).orders }
    {
        self.table.orders()
    }

    // The sheet takes what the table holds, and the table what the sheet held.
    pub fn exchange(&mut self, table: &mut Table)
        requires { lawful (content table.old) ≡ true }
        ensures sheet { sheet_content self.new ≡ content table.old }
        ensures table { content table.new ≡ sheet_content self.old }
    {
        swap(&mut self.table, table);
    }
}
