// A duty: `scan`, `reach` or `hold`, a due, and names joined by `+` or a literal.
ghost use Rattle.std.specs.Prelude.{◌≡◌};
ghost use Rattle.text.specs.Split.{split};
ghost use Rattle.fields.specs.Reading.{pairs};
ghost use Rattle.fields.specs.Fields.{duty_of, on_literal, scan_of, word_pair};

use crate::due::{read_form, read_value};
use crate::fault::Cause;
use crate::literal::{check_literal, find_literal};
use crate::name_list::{Declared, NameList};
use crate::set::{check_names, collect_tags};
use duties::{Due, DutyPattern, Literal, Task};
use text::{Pieces, after};

// The two words of what follows a duty's key word.
fn two_words(bytes: &[u8]) -> Result<(&[u8], &[u8]), Cause>
    ensures { pairs result ≡ word_pair (split 32 bytes.now) }
{
    let mut words = Pieces::of(bytes, b' ');
    match (words.next(), words.next(), words.next()) {
        (Some(first), Some(second), None) => Ok((first, second)),
        _ => Err(Cause::Shape),
    }
}

// The shapes of both words come before their values.
fn read_scan(tags: NameList<'_>, bytes: &[u8]) -> Result<DutyPattern, Cause>
    ensures { result ≡ scan_of tags.entry.names.now bytes.now }
{
    let (due, asked) = two_words(bytes)?;
    let form = read_form(due)?;
    check_names(asked)?;
    let due = read_value(form)?;
    let set = collect_tags(tags, asked)?;
    Ok(DutyPattern {
        due,
        task: Task::Scan(set),
    })
}

fn read_on_literal(points: NameList<'_>, bytes: &[u8]) -> Result<(Due, Literal), Cause>
    ensures { result ≡ on_literal points.entry.names.now bytes.now }
{
    let (due, asked) = two_words(bytes)?;
    let form = read_form(due)?;
    check_literal(asked)?;
    let due = read_value(form)?;
    let literal = find_literal(points, asked)?;
    Ok((due, literal))
}

// The marks are bytes: a sheet is no text before it is read.
impl Declared<'_> {
    pub(crate) fn read_duty(&self, bytes: &[u8]) -> Result<DutyPattern, Cause>
        ensures { result ≡ duty_of self.now.tags.names.now self.now.points.names.now bytes.now }
    {
        if let Some(rest) = after(bytes, b"scan ") {
            return read_scan(self.tags, rest);
        }
        if let Some(rest) = after(bytes, b"reach ") {
            let (due, literal) = read_on_literal(self.points, rest)?;
            return Ok(DutyPattern {
                due,
                task: Task::Reach(literal),
            });
        }
        if let Some(rest) = after(bytes, b"hold ") {
            let (due, literal) = read_on_literal(self.points, rest)?;
            return Ok(DutyPattern {
                due,
                task: Task::Hold(literal),
            });
        }
        Err(Cause::Shape)
    }
}
