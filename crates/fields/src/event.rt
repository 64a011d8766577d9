// Events, and the statements that are effects and conditions.
ghost use Rattle.std.specs.Prelude.{◌≡◌};
ghost use Rattle.text.specs.Split.{split};
ghost use Rattle.fields.specs.Reading.{placed};
ghost use Rattle.fields.specs.Fields.{by_words, event_of, read_set, statement_of};

use crate::fault::{Cause, WordFault};
use crate::literal::find_literal;
use crate::name_list::{Declared, NameList};
use crate::set::{check_names, collect_tags};
use duties::{Event, Statement, TagSet};
use text::{after, cut};

// A set of tags: names joined by `+`.
fn read_tags(tags: NameList<'_>, bytes: &[u8]) -> Result<TagSet, Cause>
    ensures { result ≡ read_set tags.entry.names.now bytes.now }
{
    check_names(bytes)?;
    collect_tags(tags, bytes)
}

impl Declared<'_> {
    // An event: names joined by `+`, or `met` or `failed` and a duty.
    pub fn read_event(&self, field: usize, bytes: &[u8]) -> Result<Event, WordFault>
        ensures { result ≡ placed field (event_of self.now.tags.names.now self.now.points.names.now bytes.now) }
    {
        self.unplaced_event(bytes)
            .map_err(|cause| WordFault { field, cause })
    }

    // A statement: a literal in one word, a duty in more, or `no` and a duty.
    pub fn read_statement(&self, field: usize, bytes: &[u8]) -> Result<Statement, WordFault>
        ensures { result ≡ placed field (statement_of self.now.tags.names.now self.now.points.names.now bytes.now) }
    {
        self.unplaced_statement(bytes)
            .map_err(|cause| WordFault { field, cause })
    }

    fn unplaced_event(&self, bytes: &[u8]) -> Result<Event, Cause>
        ensures { result ≡ event_of self.now.tags.names.now self.now.points.names.now bytes.now }
    {
        if let Some(rest) = after(bytes, b"met ") {
            return self.read_duty(rest).map(Event::Met);
        }
        if let Some(rest) = after(bytes, b"failed ") {
            return self.read_duty(rest).map(Event::Failed);
        }
        read_tags(self.tags, bytes).map(Event::Tags)
    }

    fn unplaced_statement(&self, bytes: &[u8]) -> Result<Statement, Cause>
        ensures { result ≡ statement_of self.now.tags.names.now self.now.points.names.now bytes.now }
    {
        if let Some(rest) = after(bytes, b"no ") {
            return self.read_duty(rest).map(Statement::NoDuty);
        }
        self.read_plain(bytes)
    }

    // A statement without `no`: a literal in one word, a duty in more.
    fn read_plain(&self, bytes: &[u8]) -> Result<Statement, Cause>
        ensures { result ≡ by_words self.now.tags.names.now self.now.points.names.now bytes.now (split 32 bytes.now) }
    {
        match cut(bytes, b' ') {
            (word, None) => find_literal(self.points, word).map(Statement::Literal),
            _ => self.read_duty(bytes).map(Statement::Duty),
        }
    }
}
