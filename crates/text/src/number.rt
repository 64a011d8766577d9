// Numbers in a text.
ghost use Rattle.std.specs.Prelude.{◌≡◌, if◌then◌else◌, Some as Just, None as Nothing, nat_le};
ghost use Rattle.text.specs.Spelling.{value};

// The number that the digits write, where it is no more than the limit. It is told of any bytes, as `value` counts them, where `str::parse` would refuse some.
#[tactic(auto, using(crate::proofs::Values::value_next))]
pub fn value_up_to(digits: &[u8], limit: u32) -> Option<u32>
    ensures { result ≡ (if nat_le (value 0 digits.now) limit then Just (value 0 digits.now) else Nothing) }
{
    let mut n: u32 = 0;
    for d in digits {
        n = n
            .checked_mul(10)?
            .checked_add(u32::from(d.saturating_sub(b'0')))?;
    }
    (n <= limit).then_some(n)
}
