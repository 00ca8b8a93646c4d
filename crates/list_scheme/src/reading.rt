// Reading a list certificate, field by field.
ghost use Rattle.std.specs.Prelude.{◌≡◌, ℕ, ◌+◌, ◌*◌, ◌≤◌, List, min, map, drop, OnOk, Ok, Err, MatchResult};
ghost use Rattle.buffers.specs.Items.{items};
ghost use Rattle.keys.specs.Signed.{signed};
ghost use Rattle.keys.specs.Varint.{read_varint};
ghost use Rattle.refusals.specs.Limits.{max_members};
ghost use Rattle.refusals.specs.Results.{map_ok};
ghost use Rattle.rolls.specs.Bitmap.{Bitmap};
ghost use Rattle.list_scheme.specs.Certificate.{parts};
ghost use Rattle.list_scheme.specs.Reading.{signatures as signatures_of, fault as fault_of, listed, read_list};

use crate::certificate::ListCertificate;
use buffers::{Bounded, Rest};
use keys::{Signature, read_varint};
use refusals::{CertificateFault, FaultKind, Layer, MAX_MEMBERS};
use rolls::Signers;

fn fault(kind: FaultKind, layer: Layer, place: usize) -> CertificateFault
    ensures { result ≡ fault_of kind layer place }
{
    CertificateFault { kind, layer, place }
}

// Reads `count` signatures of `width` bytes.
fn signatures(
    rest: &mut Rest<'_>,
    count: usize,
    width: usize,
) -> Result<Bounded<Signature, MAX_MEMBERS>, CertificateFault>
    requires few { count ≤ 64 }
    requires narrow { width ≤ 64 }
    ensures read { map_ok (λ l. map signed (items l)) result ≡ signatures_of width count rest.old.place rest.old.bytes.now }
    ensures rest { OnOk result ((rest.new.bytes.now ≡ drop (count * width) rest.old.bytes.now) × (rest.new.place ≡ rest.old.place + count * width)) }
{
    let mut list = Bounded::new(Signature::new(&[]));
    for _ in 0..count {
        let place = rest.place();
        let bytes = rest
            .take(width)
            .ok_or(fault(FaultKind::EndOfBuffer, Layer::Signatures, place))?;
        list.push(Signature::new(bytes)).unwrap();
    }
    Ok(list)
}

// Reads how many signatures follow, at most a bound.
fn count(rest: &mut Rest<'_>, bound: usize) -> Result<usize, CertificateFault>
    ensures { MatchResult result (λ n. (n ≤ min bound max_members) × ((size : ℕ) × (read_varint rest.old.bytes.now ≡ Ok (record { value = n; size = size })) × (rest.new.bytes.now ≡ drop size rest.old.bytes.now) × (rest.new.place ≡ rest.old.place + size))) (λ f. (width : ℕ) (b : Bitmap) (bs : List ℕ) → listed width bound b rest.old.place bs (read_varint rest.old.bytes.now) ≡ Err f) }
{
    let place = rest.place();
    let count = read_varint(rest.bytes()).map_err(|varint| fault(
        varint.into(),
        Layer::Signatures,
        place,
    ))?;
    if count.value as usize > bound.min(MAX_MEMBERS) {
        return Err(fault(FaultKind::InvalidLength, Layer::Signatures, place));
    }
    rest.take(count.size).unwrap();
    Ok(count.value as usize)
}

impl ListCertificate {
    // A certificate of at most so many members, with signatures of a width.
    #[tactic(auto, unfolding(crate::specs::Reading::read_list))]
    pub(crate) fn read(
        bytes: &[u8],
        bound: usize,
        width: usize,
    ) -> Result<ListCertificate, CertificateFault>
        requires { width ≤ 64 }
        ensures { map_ok parts result ≡ read_list width bound bytes.now }
    {
        let signers = Signers::read(bytes, bound)?;
        if signers.count() == 0 {
            return Err(fault(FaultKind::Invalid, Layer::Certificate, 0));
        }
        let mut rest = Rest::new(bytes);
        rest.take(signers.size()).unwrap();
        let at = rest.place();
        let listed = count(&mut rest, bound)?;
        let signatures = signatures(&mut rest, listed, width)?;
        if signers.count() != signatures.as_slice().len() {
            return Err(fault(FaultKind::Invalid, Layer::Certificate, at));
        }
        if !rest.bytes().is_empty() {
            return Err(fault(FaultKind::ExtraData, Layer::Certificate, rest.place()));
        }
        Ok(ListCertificate {
            signers,
            signatures,
        })
    }
}
