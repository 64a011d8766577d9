// Sets of the numbers 0 to 63. As a number, a set is the sum of 2^n over its members n: a word, which is copied and needs no heap.
ghost use Rattle.std.specs.Prelude.{◌≡◌, ℕ, ◌/◌, ◌%◌, ◌^◌, ◌<◌, ◌⊎◌, ◌↔◌, bit_or};
ghost use Rattle.duties.specs.Sets.{Has, adding, has};

// Some of the tags.
#[derive(Clone, Copy, PartialEq, Eq, PartialOrd, Ord)]
pub struct TagSet(pub u64);

// Some of the points: those that hold. A type of its own, so that no point is taken for a tag.
#[derive(Clone, Copy, PartialEq, Eq)]
pub struct PointSet(pub u64);

// The bit of a word at a place.
fn bit(word: u64, at: u8) -> u64
    requires { at < 64 }
    ensures { result ≡ word / 2 ^ at % 2 }
{
    (word >> at) & 1
}

// The word with the bit at a place set.
fn with_bit(word: u64, at: u8) -> u64
    requires { at < 64 }
    ensures value { result ≡ bit_or word (2 ^ at) }
    ensures each { (n : ℕ) → Has result n ↔ (Has word n ⊎ (n ≡ at)) }
{
    word | (1 << at)
}

impl TagSet {
    pub const NONE: TagSet = TagSet(0);

    // Whether a tag is in the set. No set has a number over 63.
    pub fn has(self, tag: u8) -> bool
        ensures { result ≡ has self.0 tag }
    {
        if tag > 63 {
            return false;
        }
        bit(self.0, tag) == 1
    }

    // The set with one more tag. A number over 63 adds nothing.
    pub fn with(self, tag: u8) -> TagSet
        ensures value { result.0 ≡ adding self.0 tag }
        ensures each { tag < 64 → (n : ℕ) → Has result.0 n ↔ (Has self.0 n ⊎ (n ≡ tag)) }
    {
        if tag > 63 {
            return self;
        }
        TagSet(with_bit(self.0, tag))
    }
}
