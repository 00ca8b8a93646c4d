// A set of signers from bytes.
ghost use Rattle.std.specs.Prelude.{◌≡◌, ℕ, ◌^◌, ◌<◌, ◌≤◌, min, List, ◌++◌, length, take, IfOk, Ok, MatchOption};
ghost use Rattle.keys.specs.Bytes.{little_number};
ghost use Rattle.refusals.specs.Limits.{max_members};
ghost use Rattle.rolls.specs.Bitmap.{Bitmap, bitmap_written, read_bitmap};
ghost use Rattle.refusals.specs.Results.{map_ok};
ghost use Rattle.rolls.specs.Signers.{bitmap, written_size, LaidOut, decode_bitmap};

use super::Signers;
use refusals::{BitmapFault, CertificateFault, FaultKind, Layer, MAX_MEMBERS};

// A fault, and its place.
fn fault(kind: FaultKind, place: usize) -> BitmapFault
    ensures { result ≡ record { kind = kind; place = place } }
{
    BitmapFault { kind, place }
}

// The number that at most eight bytes write, the least significant first.
fn little(bytes: &[u8]) -> u64
    requires { length bytes.now ≤ 8 }
    ensures { result ≡ little_number bytes.now }
{
    let mut eight = [0; 8];
    eight[..bytes.len()].copy_from_slice(bytes);
    u64::from_le_bytes(eight)
}

impl Signers {
    // The set of some bits, below a length of at most 64; none where a bit stands at or above the length.
    fn from_bits(len: usize, bits: u64) -> Option<Signers>
        requires { len ≤ max_members }
        ensures { MatchOption result (2 ^ len ≤ bits) (λ s. bitmap s ≡ record { len = len; bits = bits }) }
    {
        if bits.checked_shr(len as u32).is_some_and(|above| above > 0) {
            return None;
        }
        Some(Signers { len, bits })
    }

    /// The set at the front of some bytes, of at most so many members; the rest of the bytes is not looked at.
    pub fn read(bytes: &[u8], limit: usize) -> Result<Signers, BitmapFault>
        ensures read { map_ok bitmap result ≡ read_bitmap limit bytes.now }
        ensures written { IfOk result (λ s. take (written_size (bitmap s)) bytes.now ≡ bitmap_written (bitmap s)) }
        ensures laid_out { IfOk result (λ s. LaidOut (bitmap s) bytes.now) }
        ensures reads_back { (b : Bitmap) (rest : List ℕ) → b.len ≤ min limit max_members → b.bits < 2 ^ b.len → bytes.now ≡ bitmap_written b ++ rest → map_ok bitmap result ≡ Ok b }
    {
        let (len, rest) = bytes
            .split_first_chunk::<8>()
            .ok_or(fault(FaultKind::EndOfBuffer, 0))?;
        let len = u64::from_be_bytes(*len);
        if len > limit.min(MAX_MEMBERS) as u64 {
            return Err(fault(FaultKind::InvalidLength, 0));
        }
        let len = len as usize;
        let bits = rest
            .get(..len.div_ceil(8))
            .ok_or(fault(FaultKind::EndOfBuffer, 8))?;
        Signers::from_bits(len, little(bits)).ok_or(fault(FaultKind::Invalid, 8))
    }

    /// The set that all of the bytes are, of at most so many members.
    #[tactic(auto, using(crate::proofs::Readings::decode_broken, crate::proofs::Readings::ok_decodes))]
    pub fn decode(bytes: &[u8], limit: usize) -> Result<Signers, CertificateFault>
        ensures read { map_ok bitmap result ≡ decode_bitmap limit bytes.now }
        ensures written { IfOk result (λ s. bytes.now ≡ bitmap_written (bitmap s)) }
        ensures reads_back { (b : Bitmap) → b.len ≤ min limit max_members → b.bits < 2 ^ b.len → bytes.now ≡ bitmap_written b → map_ok bitmap result ≡ Ok b }
    {
        let signers = Signers::read(bytes, limit)?;
        let size = signers.size();
        if bytes.len() > size {
            return Err(CertificateFault {
                kind: FaultKind::ExtraData,
                layer: Layer::Certificate,
                place: size,
            });
        }
        Ok(signers)
    }
}
