// The text that a case writes down.
ghost use Rattle.std.specs.Prelude.{◌<◌, length};
ghost use Rattle.std.specs.Iterator.{at_most};

use std::alloc::{AllocError, Global};
use text::cut;

// What stands next in a case.
#[derive(Clone, Copy)]
enum Part {
    Byte(u8),
    // The start of a piece that is to stand so many times.
    Open(u32),
    Close,
}

// What is left of a case. An escape or a count that its end cuts off ends the parts too.
#[derive(Clone, Copy)]
struct Parts<'a>(&'a [u8]);

impl Iterator for Parts<'_> {
    type Item = Part;

    ghost remaining = { λ s. at_most (length s.0.now) };

    fn next(&mut self) -> Option<Part> {
        let (part, rest) = match self.0 {
            [b'\\', b'x', high, low, rest @ ..] => (Part::Byte(hex(*high) * 16 + hex(*low)), rest),
            [] | [b'\\'] | [b'\\', b'x', ..] => return None,
            [b'\\', b'n', rest @ ..] => (Part::Byte(b'\n'), rest),
            [b'\\', b't', rest @ ..] => (Part::Byte(b'\t'), rest),
            [b'\\', byte, rest @ ..] => (Part::Byte(*byte), rest),
            [b'{', counted @ ..] => {
                let (digits, rest) = cut(counted, b':');
                (Part::Open(number(digits)), rest?)
            }
            [b'}', rest @ ..] => (Part::Close, rest),
            [byte, rest @ ..] => (Part::Byte(*byte), rest),
        };
        self.0 = rest;
        Some(part)
    }
}

// Any other byte counts as 0, where `to_digit` would refuse it.
fn hex(digit: u8) -> u8
    ensures { result < 16 }
{
    match digit {
        b'0'..=b'9' => digit - b'0',
        b'a'..=b'f' => digit - b'a' + 10,
        _ => 0,
    }
}

// The number of the last six digits, of whatever bytes: `value_up_to` would refuse a larger one.
fn number(digits: &[u8]) -> u32 {
    digits
        .iter()
        .fold(0, |n, digit| n % 100_000 * 10 + u32::from(hex(*digit)))
}

// A piece that is being read, and how many times it is to stand.
#[derive(Drop)]
struct Repeat {
    times: u32,
    piece: Vec<u8>,
}

impl Repeat {
    // Writes the piece as many times as it is to stand; `#` in it is the turn.
    fn write(&self, heap: Global, text: &mut Vec<u8>) -> Result<(), AllocError> {
        for i in 0..self.times {
            let turn = format!(in heap; "{i}")?;
            for b in self.piece.iter() {
                if *b == b'#' {
                    text.extend_from_slice(turn.as_bytes())?;
                } else {
                    text.push(*b)?;
                }
            }
        }
        Ok(())
    }
}

// A piece that is opened within a piece goes on with it, under its own count; one that is never closed does not stand.
pub(crate) fn expand(heap: Global, bytes: &[u8]) -> Result<Vec<u8>, AllocError> {
    let mut text = Vec::new(heap);
    let mut open: Option<Repeat> = None;
    for part in Parts(bytes) {
        match (part, &mut open) {
            (Part::Byte(b), None) => text.push(b)?,
            (Part::Byte(b), Some(repeat)) => repeat.piece.push(b)?,
            (Part::Open(times), None) => {
                open = Some(Repeat {
                    times,
                    piece: Vec::new(heap),
                });
            }
            (Part::Open(times), Some(repeat)) => repeat.times = times,
            (Part::Close, _) => {
                if let Some(repeat) = open.take() {
                    repeat.write(heap, &mut text)?;
                }
            }
        }
    }
    Ok(text)
}
