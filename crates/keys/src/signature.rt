// A signature's bytes, at most 64 of them.
ghost use Rattle.std.specs.Prelude.{◌≡◌};
ghost use Rattle.keys.specs.Signed.{signed, within};

use buffers::Bounded;
use refusals::MAX_SIGNATURE;

#[derive(Clone, Copy)]
pub struct Signature {
    bytes: Bounded<u8, MAX_SIGNATURE>,
}

impl Signature {
    /// A copy of the bytes; of more than 64 none, since no such bytes are a signature.
    pub fn new(bytes: &[u8]) -> Signature
        ensures { signed result ≡ within bytes.now }
    {
        let mut copy = Bounded::new(0);
        // Without room for all, nothing is put.
        copy.extend_from_slice(bytes);
        Signature { bytes: copy }
    }

    pub fn as_slice(&self) -> &[u8]
        ensures { result.now ≡ signed self.now }
    {
        self.bytes.as_slice()
    }
}
