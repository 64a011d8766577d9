// The pieces between separators, taken one by one.
use crate::piece::cut;

// The pieces that are left; none once the last one is taken.
#[derive(Clone, Copy)]
pub struct Pieces<'a> {
    rest: Option<&'a [u8]>,
    sep: u8,
}

impl<'a> Pieces<'a> {
    ghost use Rattle.std.specs.Prelude.{◌≡◌, ◌≤◌, ◌^◌, length};
    ghost use Rattle.text.specs.Split.{split};
    ghost use Rattle.text.specs.Pieces.{pieces_left};

    #[tactic(auto, using(crate::proofs::Splits::split_few), unfolding(crate::specs::Pieces::pieces_left))]
    pub fn of(bytes: &'a [u8], sep: u8) -> Pieces<'a>
        ensures pieces { pieces_left result ≡ split sep bytes.now }
        ensures bound { length (pieces_left result) ≤ 2 ^ 63 }
    {
        Pieces {
            rest: Some(bytes),
            sep,
        }
    }
}

impl<'a> Iterator for Pieces<'a> {
    ghost use Rattle.std.specs.Iterator.{YieldsFirstRef, item_count};
    ghost use Rattle.text.specs.Pieces.{pieces_left};

    type Item = &'a [u8];

    ghost next_gives = { YieldsFirstRef pieces_left };

    ghost remaining = { item_count pieces_left };

    #[tactic(auto, unfolding(crate::specs::Pieces::pieces_left))]
    fn next(&mut self) -> Option<&'a [u8]> {
        let (piece, rest) = cut(self.rest?, self.sep);
        self.rest = rest;
        Some(piece)
    }
}
