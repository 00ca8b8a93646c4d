// What checks certificates.
ghost use Rattle.std.specs.Prelude.{◌≡◌, List, length};
ghost use Rattle.schemes.specs.Judging.{Judging, Parts, Seen, Sound, At, MessageAt, verified};
ghost use Rattle.refusals.specs.Results.{map_ok};
ghost use Rattle.std.specs.Option.{option_map};

use crate::namespace::Namespace;
use crate::subject::Subject;
use refusals::{BundleFault, CertificateFault, Refusal};

pub trait Certificate: Copy {
    ghost parts: { Self → Parts };
}

pub trait Verifier {
    type Namespace: Namespace;

    type Certificate: Certificate;

    ghost judging: { Self → Judging };

    ghost sound: { (s : Self) → Sound (judging s) };

    fn members(&self) -> usize
        ensures { result ≡ (judging self.now).members };

    fn read(&self, bytes: &[u8], bound: usize) -> Result<Self::Certificate, CertificateFault>
        ensures { map_ok Self.Certificate.Certificate.parts result ≡ (judging self.now).reads bound bytes.now };

    fn verify_certificate<B: Subject<Namespace = Self::Namespace>>(
        &self,
        subject: &B,
        certificate: &Self::Certificate,
    ) -> Result<bool, Refusal>
        ensures { result ≡ verified (judging self.now) (B.Subject.said subject.now) (Self.Certificate.Certificate.parts certificate.now) };
}

/// A message and a certificate, or why the certificate could not be read.
#[derive(Clone, Copy, PartialEq, Eq)]
pub struct Entry<'a, C> {
    pub message: &'a [u8],
    pub certificate: Result<C, BundleFault>,
}

/// Entries to be judged: how many, and the entry at a place.
// By place: over the bound of an iterator, a public function would need a `requires` that it ends.
pub trait Entries {
    type Certificate: Certificate;

    ghost entries: { Self → List Seen };

    fn len(&self) -> usize
        ensures { result ≡ length (entries self.now) };

    fn message(&self, place: usize) -> Option<&[u8]>
        ensures { MessageAt (entries self.now) place (option_map (λ x. x.now) result) };

    fn entry(&self, place: usize) -> Option<Entry<'_, Self::Certificate>>
        ensures { At (entries self.now) place (option_map (λ e. record { message = e.message.now; certificate = map_ok Self.Certificate.Certificate.parts e.certificate }) result) };
}
