// A list certificate: whom it names, and their signatures by ascending member.
use buffers::Bounded;
use keys::Signature;
use refusals::MAX_MEMBERS;
use rolls::Signers;

#[derive(Clone, Copy)]
pub struct ListCertificate {
    pub(crate) signers: Signers,
    pub(crate) signatures: Bounded<Signature, MAX_MEMBERS>,
}
