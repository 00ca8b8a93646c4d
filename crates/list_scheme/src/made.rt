// A list certificate from its parts.
ghost use Rattle.std.specs.Prelude.{◌≡◌, ◌<◌, ◌≤◌, map, length, MatchResult};
ghost use Rattle.keys.specs.Signed.{signed};
ghost use Rattle.refusals.specs.Limits.{max_members};
ghost use Rattle.refusals.specs.declared.refusal.Refusal.TheVariants.{TooMany};
ghost use Rattle.rolls.specs.Signers.{bitmap};
ghost use Rattle.list_scheme.specs.Certificate.{parts};

use crate::certificate::ListCertificate;
use buffers::Bounded;
use keys::Signature;
use refusals::{MAX_MEMBERS, Refusal};
use rolls::Signers;

impl ListCertificate {
    /// A certificate from its parts, of at most 64 signatures; whether it fits a roll is for a scheme to say.
    pub fn new(signers: Signers, signatures: &[Signature]) -> Result<ListCertificate, Refusal>
        ensures { MatchResult result (λ c. (length signatures.now ≤ max_members) × (parts c ≡ record { bitmap = bitmap signers; signatures = map signed signatures.now })) (λ e. (max_members < length signatures.now) × (e ≡ TooMany max_members)) }
    {
        let mut list = Bounded::new(Signature::new(&[]));
        list.extend_from_slice(signatures)
            .ok_or(Refusal::TooMany { limit: MAX_MEMBERS })?;
        Ok(ListCertificate {
            signers,
            signatures: list,
        })
    }

    /// How many signatures it has.
    pub fn len(&self) -> usize
        ensures { result ≡ length (parts self.now).signatures }
    {
        self.signatures.as_slice().len()
    }
}
