// What can also sign, and gather signatures into certificates.
ghost use Rattle.std.specs.Prelude.{◌≡◌, ℕ, map, Err, Option};
ghost use Rattle.refusals.specs.Results.{map_ok};
ghost use Rattle.schemes.specs.Meaning.{Meaning, Laws, Written, Verified, mark, assembly, attested};
ghost use Rattle.schemes.specs.Signing.{Signed};

use crate::attestation::{Attestation, Verification};
use crate::certificate::{Certificate, Verifier};
use crate::subject::Subject;
use groups::Weights;
use refusals::Refusal;

pub trait Scheme: Verifier {
    ghost meaning: { Self → Meaning };

    ghost lawful: { (s : Self) → Laws (meaning s) };

    // The own member, where there is a key to sign with.
    ghost signer: { Self → Option ℕ };

    fn quorum(&self) -> usize
        ensures { result ≡ (meaning self.now).quorum };

    fn max_certificate_size(&self) -> usize
        ensures { result ≡ (meaning self.now).max_size };

    fn decodes(&self, signature: &[u8]) -> bool
        ensures { result ≡ (meaning self.now).decodes signature.now };

    fn sign<B: Subject<Namespace = Self::Namespace>>(
        &self,
        subject: &B,
    ) -> Result<Option<Attestation>, Refusal>
        ensures { Signed (meaning self.now) (signer self.now) (B.Subject.said subject.now) result };

    fn verify_attestation<B: Subject<Namespace = Self::Namespace>>(
        &self,
        subject: &B,
        attestation: &Attestation,
    ) -> Result<bool, Refusal>
        ensures { result ≡ attested (meaning self.now) (B.Subject.said subject.now) (mark attestation.now) };

    fn verify_attestations<W: Weights, B: Subject<Namespace = Self::Namespace>>(
        &self,
        weights: &mut W,
        subject: &B,
        attestations: &[Attestation],
        invalid: &mut [u32],
        verified: &mut [Attestation],
    ) -> Result<Verification, Refusal>
        ensures answer { Verified (meaning self.now) (B.Subject.said subject.now) (map mark attestations.now) (W.Weights.coming weights.old) (W.Weights.coming weights.new) invalid.old invalid.new (map mark verified.old) (map mark verified.new) result }
        ensures unchanged { (e : Refusal) → result ≡ Err e → (weights.new ≡ weights.old) × (verified.new ≡ verified.old) };

    fn assemble(&self, attestations: &[Attestation]) -> Result<Self::Certificate, Refusal>
        ensures { map_ok Self.Certificate.Certificate.parts result ≡ assembly (meaning self.now) (map mark attestations.now) };

    fn write(&self, certificate: &Self::Certificate, out: &mut [u8]) -> Result<usize, Refusal>
        ensures { Written (meaning self.now) (Self.Certificate.Certificate.parts certificate.now) out.old out.new result };

    ghost agrees: { (s : Self) → (meaning s).judging ≡ Self.Verifier.judging s };
}
