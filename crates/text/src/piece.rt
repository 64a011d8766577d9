// Cutting bytes at a separator.
ghost use Rattle.std.specs.Prelude.{◌≡◌, ◌<◌, [], ◌∷◌, length, IfSome, MatchOption};
ghost use Rattle.std.specs.Option.{option_map};
ghost use Rattle.text.specs.Split.{past, split};

// What follows a front, where the bytes begin with it.
#[tactic(auto, using(crate::proofs::Pasts::past_stripped))]
pub fn after<'a>(bytes: &'a [u8], front: &[u8]) -> Option<&'a [u8]>
    ensures { option_map (λ x. x.now) result ≡ past front.now bytes.now }
{
    bytes.strip_prefix(front)
}

// The bytes up to the first separator, and those after it where there is one.
#[tactic(auto, using(crate::proofs::Splits::split_parts, crate::proofs::Splits::split_none))]
pub fn cut(bytes: &[u8], sep: u8) -> (&[u8], Option<&[u8]>)
    ensures parts { MatchOption result.1 (split sep bytes.now ≡ result.0.now ∷ []) (λ q. split sep bytes.now ≡ result.0.now ∷ split sep q.now) }
    ensures shorter { IfSome result.1 (λ q. length q.now < length bytes.now) }
{
    match bytes.iter().position(|b| *b == sep) {
        Some(i) => (&bytes[..i], Some(&bytes[i + 1..])),
        None => (bytes, None),
    }
}
