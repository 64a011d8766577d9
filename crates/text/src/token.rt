// The tokens of a word, each a part of the caller's bytes.
ghost use Rattle.std.specs.Iterator.{YieldsFirstBy, item_count};
ghost use Rattle.std.specs.Prelude.{◌≡◌};
ghost use Rattle.text.specs.Spelling.{all, inner, name_like, numeral};
ghost use Rattle.text.specs.Tokens.{class_of, key_of, left, parts, token_of};

use crate::pieces::Pieces;

// The reserved words, and T.
#[derive(Clone, Copy)]
pub enum Keyword {
    Now,
    Then,
    No,
    Met,
    Failed,
    Scan,
    Reach,
    Hold,
    Tag,
    Point,
    Order,
}

#[derive(Clone, Copy)]
pub enum Token<'a> {
    // A well-formed name that is not reserved.
    Name(&'a [u8]),
    // Digits with no leading zero.
    Number(&'a [u8]),
    Key(Keyword),
    Other,
}

// That each byte may stand in a name behind the first. Inside `is_name_like` its proof is not found.
#[tactic(auto, using(crate::proofs::Alls::all_tells))]
fn all_inner(bytes: &[u8]) -> bool
    ensures { result ≡ all inner bytes.now }
{
    bytes
        .iter()
        .all(|b| matches!(*b, b'a'..=b'z' | b'0'..=b'9' | b'_'))
}

#[tactic(auto, using(crate::proofs::Alls::name_parts))]
fn is_name_like(piece: &[u8]) -> bool
    ensures { result ≡ name_like piece.now }
{
    match piece {
        [b'a'..=b'z', rest @ ..] => piece.len() <= 16 && all_inner(rest),
        _ => false,
    }
}

#[tactic(auto, using(crate::proofs::Alls::numeral_parts, crate::proofs::Alls::all_tells))]
fn is_numeral(piece: &[u8]) -> bool
    ensures { result ≡ numeral piece.now }
{
    match piece {
        [b'0'..=b'9'] => true,
        [b'1'..=b'9', rest @ ..] => rest.iter().all(u8::is_ascii_digit),
        _ => false,
    }
}

fn find_keyword(piece: &[u8]) -> Option<Keyword>
    ensures { result ≡ key_of piece.now }
{
    match piece {
        b"now" => Some(Keyword::Now),
        b"T" => Some(Keyword::Then),
        b"no" => Some(Keyword::No),
        b"met" => Some(Keyword::Met),
        b"failed" => Some(Keyword::Failed),
        b"scan" => Some(Keyword::Scan),
        b"reach" => Some(Keyword::Reach),
        b"hold" => Some(Keyword::Hold),
        b"tag" => Some(Keyword::Tag),
        b"point" => Some(Keyword::Point),
        b"order" => Some(Keyword::Order),
        _ => None,
    }
}

// The token that a whole piece is.
pub fn classify(piece: &[u8]) -> Token<'_>
    ensures { token_of result ≡ class_of piece.now }
{
    if let Some(key) = find_keyword(piece) {
        return Token::Key(key);
    }
    if is_name_like(piece) {
        return Token::Name(piece);
    }
    if is_numeral(piece) {
        return Token::Number(piece);
    }
    Token::Other
}

// The tokens of a word that are joined by `+`, taken one by one.
#[derive(Clone, Copy)]
pub struct Tokens<'a> {
    pieces: Pieces<'a>,
}

impl<'a> Tokens<'a> {
    pub fn of(word: &'a [u8]) -> Tokens<'a>
        ensures { left result ≡ parts word.now }
    {
        Tokens {
            pieces: Pieces::of(word, b'+'),
        }
    }
}

impl<'a> Iterator for Tokens<'a> {
    type Item = Token<'a>;

    ghost next_gives = { YieldsFirstBy token_of left };

    ghost remaining = { item_count left };

    fn next(&mut self) -> Option<Token<'a>> {
        self.pieces.next().map(classify)
    }
}
