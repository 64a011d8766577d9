// A line, read into a table.
ghost use Rattle.std.specs.Prelude.{◌≡◌, true, Ok as Good, Err as Bad, MatchResult};
ghost use Rattle.sheets.specs.Sheets.{content, lawful};
ghost use Rattle.names.specs.Names.{name_before};
ghost use Rattle.ordered.specs.Ascending.{holding};
ghost use Rattle.ordered.specs.Rows.{items};
ghost use Rattle.lines.specs.Lines.{name_of_field, new_name, one_field};
ghost use Rattle.text.specs.Split.{split};
ghost use Rattle.lines.specs.Reads.{Indexes, LineRead};

use crate::fault::LineCause;
use crate::order_line::read_order;
use names::Name;
use ordered::OrderedRows;
use sheets::Table;
use text::{Pieces, Token, after, classify};

fn only_field(bytes: &[u8]) -> Result<&[u8], LineCause>
    ensures { MatchResult result (λ w. one_field (split 9 bytes.now) ≡ Good w.now) (λ e. one_field (split 9 bytes.now) ≡ Bad e) }
{
    let mut fields = Pieces::of(bytes, b'\t');
    match (fields.next(), fields.next()) {
        (Some(word), None) => Ok(word),
        _ => Err(LineCause::Fields),
    }
}

// The name that a word spells, unless it is declared already. `known` has every name that is.
fn fresh_name(known: &OrderedRows<Name>, word: &[u8]) -> Result<Name, LineCause>
    ensures { result ≡ new_name (λ n. holding name_before n (items known.now)) word.now }
{
    let Token::Name(_) = classify(word) else {
        return Err(LineCause::Name);
    };
    let name = Name::of(word);
    if known.holds(name) {
        return Err(LineCause::Repeated);
    }
    Ok(name)
}

// The new name in a line's last field, where so many of its kind are declared.
fn read_name(known: &OrderedRows<Name>, so_far: usize, bytes: &[u8]) -> Result<Name, LineCause>
    ensures { result ≡ name_of_field (λ n. holding name_before n (items known.now)) so_far bytes.now }
{
    let word = only_field(bytes)?;
    if so_far >= 64 {
        return Err(LineCause::Full);
    }
    fresh_name(known, word)
}

// A table that lines are read into, and the names that it declares, in order.
// Both are lent, each at a lifetime of its own: with rows held by value, or lent at the table's lifetime, a caller could not show what its table is afterwards.
// `same_table` and `same_known` say that the draft stays on what it was lent, which is how a caller shows that.
#[derive(Drop)]
pub struct Draft<'t, 'k, 'r> {
    table: &'t mut Table,
    known: &'k mut OrderedRows<'r, Name>,
    pub ghost lawful: { lawful (content table.now) ≡ true },
    pub ghost indexed: { Indexes known.now (content table.now) },
}

impl<'t, 'k, 'r> Draft<'t, 'k, 'r> {
    ghost use Rattle.lines.specs.Drafts.{drafted};

    // Over a lawful table and the index of just its names.
    pub fn over(table: &'t mut Table, known: &'k mut OrderedRows<'r, Name>) -> Draft<'t, 'k, 'r>
        requires lawful { lawful (content table.old) ≡ true }
        requires indexed { Indexes known.old (content table.old) }
        ensures table { drafted result ≡ content table.old }
        ensures same_table { result.table.ghost_name ≡ table.entry.ghost_name }
        ensures same_known { result.known.ghost_name ≡ known.entry.ghost_name }
    {
        Draft { table, known }
    }

    // The table with what one more line declares; at a fault, the table as it was.
    // A tag and a point are read alike and go to different places: one function over both would take that as a flag.
    pub fn read_record(&mut self, line: &[u8]) -> Result<(), LineCause>
        ensures read { LineRead result (drafted self.old) (drafted self.new) line.now }
        ensures same_table { self.new.table.ghost_name ≡ self.old.table.ghost_name }
        ensures same_known { self.new.known.ghost_name ≡ self.old.known.ghost_name }
    {
        if let Some(rest) = after(line, b"tag\t") {
            let name = read_name(self.known, self.table.tags().len(), rest)?;
            self.known.insert(name);
            self.table.add_tag(name);
            return Ok(());
        }
        if let Some(rest) = after(line, b"point\t") {
            let name = read_name(self.known, self.table.points().len(), rest)?;
            self.known.insert(name);
            self.table.add_point(name);
            return Ok(());
        }
        if let Some(rest) = after(line, b"order\t") {
            let order = read_order(self.table, rest)?;
            self.table.add_order(order);
            return Ok(());
        }
        Err(LineCause::Fields)
    }
}
