// Names joined by `+`, and the set of the tags that they name.
ghost use Rattle.std.specs.Prelude.{◌≡◌};
ghost use Rattle.text.specs.Tokens.{parts};
ghost use Rattle.fields.specs.Fields.{named, tags_of};

use crate::fault::Cause;
use crate::name_list::NameList;
use duties::TagSet;
use text::{Token, Tokens};

// That a word is names joined by `+`. It is gone over once for the shape and once for the set, since every shape of a field comes before any value.
pub(crate) fn check_names(word: &[u8]) -> Result<(), Cause>
    ensures { result ≡ named (parts word.now) }
{
    for token in Tokens::of(word) {
        let Token::Name(_) = token else {
            return Err(Cause::Shape);
        };
    }
    Ok(())
}

// The set of the tags that a word names.
pub(crate) fn collect_tags(tags: NameList<'_>, word: &[u8]) -> Result<TagSet, Cause>
    ensures { result ≡ tags_of tags.entry.names.now 0 (parts word.now) }
{
    let mut set = TagSet::NONE;
    for token in Tokens::of(word) {
        let Token::Name(name) = token else {
            return Err(Cause::Shape);
        };
        set = set.with(tags.find(name)?);
    }
    Ok(set)
}
