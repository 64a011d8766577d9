// A literal: a point's name, or `!` and the name.
ghost use Rattle.std.specs.Prelude.{◌≡◌};
ghost use Rattle.text.specs.Tokens.{class_of};
ghost use Rattle.fields.specs.Fields.{literal_of, literal_shape, one_name, point_of};

use crate::fault::Cause;
use crate::name_list::NameList;
use duties::Literal;
use text::{Token, classify};

fn check_name(word: &[u8]) -> Result<(), Cause>
    ensures { result ≡ one_name (class_of word.now) }
{
    match classify(word) {
        Token::Name(_) => Ok(()),
        _ => Err(Cause::Shape),
    }
}

// That a word has the shape of a literal. Apart from finding it, since every shape of a field comes before any value.
pub(crate) fn check_literal(word: &[u8]) -> Result<(), Cause>
    ensures { result ≡ literal_shape word.now }
{
    match word {
        [b'!', rest @ ..] => check_name(rest),
        _ => check_name(word),
    }
}

fn find_point(points: NameList<'_>, word: &[u8]) -> Result<u8, Cause>
    ensures { result ≡ point_of points.entry.names.now (class_of word.now) }
{
    match classify(word) {
        Token::Name(name) => points.find(name),
        _ => Err(Cause::Shape),
    }
}

pub(crate) fn find_literal(points: NameList<'_>, word: &[u8]) -> Result<Literal, Cause>
    ensures { result ≡ literal_of points.entry.names.now word.now }
{
    match word {
        [b'!', rest @ ..] => find_point(points, rest).map(Literal::Not),
        _ => find_point(points, word).map(Literal::Is),
    }
}
