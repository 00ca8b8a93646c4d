// The residue key: a number below a prime, and a signature is a product. The private key is the key.
ghost use Rattle.std.specs.Prelude.{◌≡◌, ◌<◌, ◌≤◌, false, length, MatchOption, ◌==◌};
ghost use Rattle.std.specs.Int.Digits.{number_from_digits as number_of};
ghost use Rattle.keys.specs.Bytes.{big_endian};
ghost use Rattle.keys.specs.Residue.{residue as residue_meaning, residue_hash, residue_signature};
ghost use Rattle.keys.specs.ResidueLaws.{residue_laws, four_key};

use crate::check::KeyCheck;
use crate::signature::Signature;

pub const MODULUS: u32 = 65_521;

// The bytes of a signature.
const WIDTH: usize = 4;

#[derive(Clone, Copy, PartialEq, Eq)]
pub struct ResidueKey {
    value: u32,
    ghost some: { 1 ≤ value },
    ghost below: { value < 65521 },
}

impl ResidueKey {
    // The key times the payload, below the modulus.
    #[tactic(auto, unfolding(crate::specs::Residue::residue_signature))]
    fn product(&self, payload: &[u8]) -> [u8; 4]
        ensures { result ≡ residue_signature self.now.value payload.now }
    {
        (self.value * hash(payload) % MODULUS).to_be_bytes()
    }
}

// The bytes as one number, below the modulus.
#[tactic(auto, using(std::proofs::lemmas::Int::Digits::number_more), unfolding(crate::specs::Residue::residue_hash))]
fn hash(bytes: &[u8]) -> u32
    ensures is { result ≡ residue_hash bytes.now }
    ensures below { result < 65521 }
{
    let mut hash = 0;
    for byte in bytes {
        hash = (hash * 256 + *byte as u32) % MODULUS;
    }
    hash
}

// The number that four bytes write.
fn number(bytes: &[u8]) -> Option<u32>
    ensures { MatchOption result ((length bytes.now == 4) ≡ false) (λ n. (length bytes.now ≡ 4) × (n ≡ number_of 256 bytes.now)) }
{
    bytes.as_array().map(|four| u32::from_be_bytes(*four))
}

impl KeyCheck for ResidueKey {
    ghost meaning = { residue_meaning };

    ghost lawful = { residue_laws };

    ghost key = { λ k. big_endian 4 k.value };

    ghost keyed = { λ k. four_key k.value k.some k.below };

    #[tactic(auto, using(crate::proofs::Residues::four_bytes))]
    fn from_bytes(bytes: &[u8]) -> Option<ResidueKey> {
        let value = number(bytes).filter(|value| (1..MODULUS).contains(value))?;
        Some(ResidueKey { value })
    }

    fn width() -> usize {
        WIDTH
    }

    fn decodes(signature: &[u8]) -> bool {
        number(signature).is_some_and(|value| value < MODULUS)
    }

    fn verify(&self, payload: &[u8], signature: &[u8]) -> bool {
        signature == self.product(payload).as_slice()
    }

    #[tactic(auto, using(crate::proofs::Residues::good_itself))]
    fn sign(&self, payload: &[u8]) -> Signature {
        Signature::new(&self.product(payload))
    }
}
