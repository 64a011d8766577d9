// Names of tags and points.
ghost use Rattle.std.specs.Prelude.{◌≡◌, ◌==◌, position};
ghost use Rattle.names.specs.Names.{name_bytes, name_of};

// A name by its bytes, at most 16, filled up with zeros. No `String`: a name is copied, compared and kept without a heap.
#[derive(Clone, Copy, PartialEq, Eq)]
pub struct Name {
    pub(crate) bytes: [u8; 16],
}

impl Name {
    pub const BLANK: Name = Name { bytes: [0; 16] };

    // The name of these bytes; a well-formed name has no more than the 16 that are kept.
    #[tactic(auto, using(crate::proofs::NameWalks::filled))]
    pub fn of(bytes: &[u8]) -> Name
        ensures { result ≡ name_of bytes.now }
    {
        let mut filled = [0; 16];
        let n = bytes.len().min(16);
        filled[..n].copy_from_slice(&bytes[..n]);
        Name { bytes: filled }
    }

    // Where the zeros after the name begin, if there are any.
    fn first_zero(&self) -> Option<usize>
        ensures { result ≡ position (λ b. b == 0) self.now.bytes }
    {
        self.bytes.iter().position(|b| *b == 0)
    }

    // The name's own bytes.
    #[tactic(auto, using(crate::proofs::NameWalks::spelled_first, crate::proofs::NameWalks::spelled_whole))]
    pub fn bytes(&self) -> &[u8]
        ensures { result.now ≡ name_bytes self.now }
    {
        match self.first_zero() {
            Some(end) => &self.bytes[..end],
            None => &self.bytes,
        }
    }
}
