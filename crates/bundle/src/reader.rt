// Reading a bundle: its own faults are found here, once.
ghost use Rattle.std.specs.Prelude.{◌≡◌, ◌+◌, ◌<◌, ◌≤◌, ◌⊎◌, List, ◌++◌, map, length, Ok, IfOk, IfErr};
ghost use Rattle.refusals.specs.Results.{map_ok};
ghost use Rattle.keys.specs.Bytes.{big_endian};
ghost use Rattle.bundle.specs.Layout.{bundle, bundle_written, fault as fault_of, Raw, pair_of, Short, Limited, prefix as prefix_of, max_prefix, field_written, field as field_of, entry as entry_of, size};
ghost use Rattle.bundle.specs.Raws.{raw_of};
ghost use Rattle.bundle.specs.Places.{held_by, pairs_of};

use crate::held::RawEntry;
use crate::layout::Bundle;
use buffers::{Bounded, Rest};
use refusals::{BundleFault, FaultKind, Layer, MAX_CERTIFICATES, MAX_MESSAGE};

/// The most that two bytes hold.
const MAX_PREFIX: usize = u16::MAX as usize;

pub(crate) fn fault(kind: FaultKind, place: usize) -> BundleFault
    ensures { result ≡ fault_of kind place }
{
    BundleFault {
        kind,
        layer: Layer::Bundle,
        place,
    }
}

// Two bytes that say how long or how many, at most a limit.
fn prefix(rest: &mut Rest<'_>, limit: usize) -> Result<usize, BundleFault>
    ensures left { IfOk result (λ n. rest.old.bytes.now ≡ big_endian 2 n ++ rest.new.bytes.now) }
    ensures place { IfOk result (λ n. rest.new.place ≡ rest.old.place + 2) }
    ensures limited { IfOk result (λ n. (n ≤ limit) × (n ≤ max_prefix)) }
    ensures fault { IfErr result (λ f. ((length rest.old.bytes.now < 2) × (f ≡ fault_of FaultKind.EndOfBuffer rest.old.place)) ⊎ ((2 ≤ length rest.old.bytes.now) × (limit < prefix_of rest.old.bytes.now) × (f ≡ fault_of FaultKind.InvalidLength rest.old.place))) }
{
    let place = rest.place();
    let Some([high, low]) = rest.take(2) else {
        return Err(fault(FaultKind::EndOfBuffer, place));
    };
    let number = usize::from(u16::from_be_bytes([*high, *low]));
    if number > limit {
        return Err(fault(FaultKind::InvalidLength, place));
    }
    Ok(number)
}

// A field: a length, at most a limit, and as many bytes.
fn field<'a>(rest: &mut Rest<'a>, limit: usize) -> Result<&'a [u8], BundleFault>
    ensures field { map_ok (λ m. m.now) result ≡ field_of limit rest.old.place rest.old.bytes.now }
    ensures left { IfOk result (λ m. rest.old.bytes.now ≡ field_written m.now ++ rest.new.bytes.now) }
    ensures place { IfOk result (λ m. rest.new.place ≡ rest.old.place + 2 + length m.now) }
    ensures limited { IfOk result (λ m. (length m.now ≤ limit) × (length m.now ≤ max_prefix)) }
{
    let long = prefix(rest, limit)?;
    let place = rest.place();
    rest.take(long).ok_or(fault(FaultKind::EndOfBuffer, place))
}

// An entry: a message, then a certificate.
fn entry<'a>(rest: &mut Rest<'a>) -> Result<RawEntry<'a>, BundleFault>
    ensures entry { map_ok raw_of result ≡ entry_of rest.old.place rest.old.bytes.now }
    ensures left { IfOk result (λ e. rest.old.bytes.now ≡ field_written e.message.now ++ (field_written e.certificate.now ++ rest.new.bytes.now)) }
    ensures place { IfOk result (λ e. rest.new.place ≡ rest.old.place + size (raw_of e)) }
    ensures short { IfOk result (λ e. Short (raw_of e)) }
{
    let message = field(rest, MAX_MESSAGE)?;
    let certificate = field(rest, MAX_PREFIX)?;
    Ok(RawEntry {
        message,
        place: rest.place() - certificate.len(),
        certificate,
    })
}

impl<'a> Bundle<'a> {
    /// Finds a bundle's own faults; those of its certificates stay with their entries.
    pub fn read(bytes: &'a [u8]) -> Result<Bundle<'a>, BundleFault>
        ensures entries { map_ok held_by result ≡ bundle bytes.now }
        ensures written { IfOk result (λ b. bytes.now ≡ bundle_written (held_by b)) }
        ensures reads_back { (rs : List Raw) → Limited rs → bytes.now ≡ bundle_written rs → map_ok pairs_of result ≡ Ok (map pair_of rs) }
    {
        let mut rest = Rest::new(bytes);
        let count = prefix(&mut rest, MAX_CERTIFICATES)?;
        let mut entries = Bounded::new(RawEntry {
            message: &[],
            place: 0,
            certificate: &[],
        });
        for _ in 0..count {
            entries.push(entry(&mut rest)?).unwrap();
        }
        if !rest.bytes().is_empty() {
            return Err(fault(FaultKind::ExtraData, rest.place()));
        }
        Ok(Bundle { entries })
    }
}
