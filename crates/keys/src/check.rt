// The interface of a key check: its keys, its signatures, and which of them are good.
ghost use Rattle.std.specs.Prelude.{◌≡◌, ℕ, true, false, List, MatchOption};
ghost use Rattle.keys.specs.Meaning.{KeyMeaning, KeyLaws};
ghost use Rattle.keys.specs.Signed.{signed};

use crate::signature::Signature;

pub trait KeyCheck: Copy {
    ghost meaning: { KeyMeaning };

    ghost lawful: { KeyLaws meaning };

    // The bytes of a key.
    ghost key: { Self → List ℕ };

    // Bytes that are no key make no key value.
    ghost keyed: { (k : Self) → meaning.is_key (key k) ≡ true };

    // No supertrait `TryFrom`: it would be `for<'a> TryFrom<&'a [u8]>`, which the check does not cover.
    fn from_bytes(bytes: &[u8]) -> Option<Self>
        ensures { MatchOption result (meaning.is_key bytes.now ≡ false) (λ k. key k ≡ bytes.now) };

    fn width() -> usize
        ensures { result ≡ meaning.width };

    fn decodes(signature: &[u8]) -> bool
        ensures { result ≡ meaning.decodes signature.now };

    fn verify(&self, payload: &[u8], signature: &[u8]) -> bool
        ensures { result ≡ meaning.good (key self.now) payload.now signature.now };

    // The private key is the key.
    fn sign(&self, payload: &[u8]) -> Signature
        ensures { meaning.good (key self.now) payload.now (signed result) ≡ true };
}
