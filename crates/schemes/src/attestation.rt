// A member's signature of a subject.
use keys::Signature;

#[derive(Clone, Copy)]
pub struct Attestation {
    pub signer: u32,
    pub signature: Signature,
}

/// How much of each of the two lent listings is the answer.
// Counts and no slices: both listings are lent, as docs/RULES.md says.
#[derive(Clone, Copy, PartialEq, Eq)]
pub struct Verification {
    pub invalid: usize,
    pub verified: usize,
}
