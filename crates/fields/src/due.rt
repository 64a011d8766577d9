// A due: a number, or `now` or `T`, alone or with a number added.
ghost use Rattle.std.specs.Prelude.{◌≡◌};
ghost use Rattle.text.specs.Tokens.{parts};
ghost use Rattle.fields.specs.Reading.{shaped};
ghost use Rattle.fields.specs.Dues.{due_form, due_of, form_of, forms, limited};

use crate::fault::Cause;
use duties::Due;
use text::{Keyword, Token, Tokens, value_up_to};

// The shape of a due: the digits of the minute, or of what is added to now or to T, none where nothing is added.
// It is no `Due` over a type parameter: `Due` is a plain value that definitions of many crates name, and only this reader has digits in its place.
#[derive(Clone, Copy)]
pub enum DueForm<'a> {
    At(&'a [u8]),
    Now(&'a [u8]),
    Then(&'a [u8]),
}

pub(crate) fn read_form(word: &[u8]) -> Result<DueForm<'_>, Cause>
    ensures { forms result ≡ shaped (form_of (parts word.now)) }
{
    let mut tokens = Tokens::of(word);
    match (tokens.next(), tokens.next(), tokens.next()) {
        (Some(Token::Number(n)), None, None) => Ok(DueForm::At(n)),
        (Some(Token::Key(Keyword::Now)), None, None) => Ok(DueForm::Now(&[])),
        (Some(Token::Key(Keyword::Then)), None, None) => Ok(DueForm::Then(&[])),
        (Some(Token::Key(Keyword::Now)), Some(Token::Number(n)), None) => Ok(DueForm::Now(n)),
        (Some(Token::Key(Keyword::Then)), Some(Token::Number(n)), None) => Ok(DueForm::Then(n)),
        _ => Err(Cause::Shape),
    }
}

// The number that the digits write, unless it is over the limit.
fn read_number(digits: &[u8], limit: u32) -> Result<u32, Cause>
    ensures { result ≡ limited limit digits.now }
{
    value_up_to(digits, limit).ok_or(Cause::Over)
}

pub(crate) fn read_value(form: DueForm<'_>) -> Result<Due, Cause>
    ensures { result ≡ due_of (due_form form.entry) }
{
    match form {
        DueForm::At(digits) => read_number(digits, 1_000_000_000).map(Due::At),
        DueForm::Now(digits) => read_number(digits, 1_000_000).map(Due::Now),
        DueForm::Then(digits) => read_number(digits, 1_000_000).map(Due::Then),
    }
}
