// The lines of a text, read into a table.
ghost use Rattle.std.specs.Prelude.{◌≡◌, ◌≤◌, true, length, Ok as Good, Err as Bad, MatchResult};
ghost use Rattle.lines.specs.Drafts.{drafted};
ghost use Rattle.sheets.specs.Sheets.{blank, content, lawful};
ghost use Rattle.text.specs.Split.{split};
ghost use Rattle.verdicts.specs.Texts.{lines_of};

use lines::Draft;
use names::Name;
use ordered::OrderedRows;
use sheets::Table;
use text::Pieces;
use verdicts::{LineFault, LoadFault};

// Line after line, up to the first fault, which is made with its line's number. What stands behind the last line feed is no line.
#[tactic(auto, using(text::proofs::Splits::split_none, crate::proofs::TextLines::lines_first))]
fn read_lines(draft: &mut Draft, text: &[u8]) -> Result<(), LoadFault>
    ensures read { MatchResult result (λ _. lines_of (split 10 text.now) 1 (drafted draft.old) ≡ Good (drafted draft.new)) (λ e. lines_of (split 10 text.now) 1 (drafted draft.old) ≡ Bad e) }
    ensures same_table { draft.new.table.ghost_name ≡ draft.old.table.ghost_name }
{
    let Some(end) = text.iter().rposition(|b| *b == b'\n') else {
        return Ok(());
    };
    for (i, line) in Pieces::of(&text[..end], b'\n').enumerate() {
        draft
            .read_record(line)
            .map_err(|cause| LineFault { line: i + 1, cause })?;
    }
    Ok(())
}

// The table that the lines declare, from nothing.
pub(crate) fn read_table(table: &mut Table, text: &[u8]) -> Result<(), LoadFault>
    ensures read { MatchResult result (λ _. lines_of (split 10 text.now) 1 blank ≡ Good (content table.new)) (λ e. lines_of (split 10 text.now) 1 blank ≡ Bad e) }
    ensures lawful { lawful (content table.new) ≡ true }
{
    // An array, and no set of std: loading allocates nothing.
    let mut rows = [Name::BLANK; 128];
    let mut known = OrderedRows::new(&mut rows);
    table.clear();
    let mut draft = Draft::over(table, &mut known);
    read_lines(&mut draft, text)
}
