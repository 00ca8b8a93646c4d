// The list scheme, over any key check and any kind of subject.
ghost use Rattle.std.specs.Prelude.{◌≡◌, true, IfOk, Ok};
ghost use Rattle.refusals.specs.Results.{map_ok};
ghost use Rattle.rolls.specs.Roll.{keys_of, raw_keys};
ghost use Rattle.schemes.specs.Judging.{Parts, named};
ghost use Rattle.list_scheme.specs.Accepted.{each_good, list_fits, list_judging};
ghost use Rattle.list_scheme.specs.Certificate.{parts as parts_of};
ghost use Rattle.list_scheme.specs.Made.{Made};
ghost use Rattle.list_scheme.specs.Reading.{read_list};
ghost use Rattle.list_scheme.specs.Soundness.{list_sound};
ghost use Rattle.list_scheme.specs.Writing.{list_written, Readable};

use crate::certificate::ListCertificate;
use keys::{KeyCheck, union_unique};
use refusals::{CertificateFault, MAX_MESSAGE, MAX_PAYLOAD, Refusal};
use rolls::{Faults, Member, Roll};
use schemes::{Certificate, Namespace, Subject, Verifier};

#[derive(Drop)]
pub struct ListScheme<K: KeyCheck, N: Namespace> {
    roll: Roll<K>,
    faults: Faults,
    namespace: N,
}

impl<K: KeyCheck, N: Namespace> ListScheme<K, N> {
    /// A scheme that checks certificates and cannot sign.
    pub fn verifier(
        namespace: &[u8],
        members: &[Member<'_>],
        faults: Faults,
    ) -> Result<ListScheme<K, N>, Refusal>
        ensures { Made K.KeyCheck.meaning.is_key namespace.now (raw_keys members.now) (λ s. (keys_of K.KeyCheck.key s.roll ≡ raw_keys members.now) × (s.faults ≡ faults) × (N.Namespace.bytes s.namespace ≡ N.Namespace.derived namespace.now)) result }
    {
        let namespace = N::derive(namespace)?;
        let roll = Roll::new(members)?;
        Ok(ListScheme {
            roll,
            faults,
            namespace,
        })
    }
}

impl Certificate for ListCertificate {
    ghost parts = { parts_of };
}

impl<K: KeyCheck, N: Namespace> ListScheme<K, N> {
    // Whether a certificate is for this roll: its length, as many signatures as members, a quorum.
    #[tactic(auto, unfolding(crate::specs::Accepted::list_fits))]
    fn fits(&self, certificate: &ListCertificate) -> bool
        ensures { result ≡ list_fits (keys_of K.KeyCheck.key self.now.roll) self.now.faults (parts_of certificate.now) }
    {
        let members = self.roll.len();
        let count = certificate.signers.count();
        certificate.signers.len() == members
            && count == certificate.len()
            && count >= self.faults.quorum(members as u32) as usize
    }

    // Whether each member's signature of a payload is good; a certificate that fits has one for each.
    fn all_good(&self, payload: &[u8], certificate: &ListCertificate) -> bool
        requires { list_fits (keys_of K.KeyCheck.key self.now.roll) self.now.faults (parts_of certificate.now) ≡ true }
        ensures { result ≡ each_good K.KeyCheck.meaning (keys_of K.KeyCheck.key self.now.roll) payload.now (named (parts_of certificate.now)) (parts_of certificate.now).signatures }
    {
        self.roll
            .keys()
            .iter()
            .enumerate()
            .filter(|(member, _)| certificate.signers.contains(*member as u32))
            .zip(certificate.signatures.as_slice())
            .all(|((_, key), signature)| key.verify(payload, signature.as_slice()))
    }
}

impl<K: KeyCheck, N: Namespace> Verifier for ListScheme<K, N> {
    type Namespace = N;

    type Certificate = ListCertificate;

    ghost judging = { λ s. list_judging K.KeyCheck.meaning (keys_of K.KeyCheck.key s.roll) s.faults (N.Namespace.bytes s.namespace) };

    ghost sound = { λ s. list_sound K.KeyCheck.meaning (keys_of K.KeyCheck.key s.roll) s.faults (N.Namespace.bytes s.namespace) s.roll.enrolled.some s.roll.enrolled.few };

    fn members(&self) -> usize {
        self.roll.len()
    }

    // What is read is the writing of a certificate, and every certificate that can be read is read from its writing.
    fn read(&self, bytes: &[u8], bound: usize) -> Result<ListCertificate, CertificateFault>
        ensures read { map_ok parts_of result ≡ read_list K.KeyCheck.meaning.width bound bytes.now }
        ensures written { IfOk result (λ c. Readable K.KeyCheck.meaning.width bound (parts_of c) × (bytes.now ≡ list_written (parts_of c))) }
        ensures reads_back { (p : Parts) → Readable K.KeyCheck.meaning.width bound p → bytes.now ≡ list_written p → map_ok parts_of result ≡ Ok p }
    {
        ListCertificate::read(bytes, bound, K::width())
    }

    #[tactic(auto, unfolding(crate::specs::Accepted::list_accepted))]
    fn verify_certificate<B: Subject<Namespace = N>>(
        &self,
        subject: &B,
        certificate: &ListCertificate,
    ) -> Result<bool, Refusal> {
        let message = subject.message();
        if message.len() > MAX_MESSAGE {
            return Err(Refusal::TooMany { limit: MAX_MESSAGE });
        }
        if !self.fits(certificate) {
            return Ok(false);
        }
        // A table with its length beside: `union_unique` writes into a lent slice, and nothing is allocated.
        let mut payload = [0u8; MAX_PAYLOAD];
        let size = union_unique(subject.namespace(&self.namespace), message, &mut payload)?;
        Ok(self.all_good(&payload[..size], certificate))
    }
}
