// Unsigned LEB128 in its shortest form, at most 32 bits.
ghost use Rattle.std.specs.Prelude.{◌≡◌, ℕ, ◌+◌, ◌*◌, ◌^◌, ◌<◌, ◌≤◌, ◌⊎◌, List, ◌++◌, length, take, IfOk, Ok, MatchResult};
ghost use Rattle.refusals.specs.declared.refusal.Refusal.TheVariants.{SmallBuffer};
ghost use Rattle.keys.specs.Bytes.{overlaid};
ghost use Rattle.keys.specs.Varint.{varint, read_varint, fault_kind};
ghost use Rattle.keys.specs.declared.varint.VarintFault.TheVariants.{Invalid};

use refusals::{FaultKind, Refusal};

// The most bytes of a number.
const MAX_GROUPS: usize = 5;

/// A number, and how many bytes it was read from.
#[derive(Clone, Copy, PartialEq, Eq)]
pub struct Varint {
    pub value: u32,
    pub size: usize,
}

#[derive(Clone, Copy, PartialEq, Eq)]
pub enum VarintFault {
    /// The input ends before the number does.
    EndOfBuffer,
    /// Not the shortest form, or more than 32 bits.
    Invalid,
}

impl From<VarintFault> for FaultKind {
    ghost from_gives = { λ f r. r ≡ fault_kind f };

    fn from(fault: VarintFault) -> FaultKind {
        match fault {
            VarintFault::EndOfBuffer => FaultKind::EndOfBuffer,
            VarintFault::Invalid => FaultKind::Invalid,
        }
    }
}

/// How many bytes a number takes: one for each seven bits up to its highest, and one for 0.
#[tactic(auto, using(crate::proofs::Varints::varint_bits))]
pub fn varint_size(value: u32) -> usize
    ensures { result ≡ length (varint value) }
{
    value.max(1).ilog2() as usize / 7 + 1
}

/// Writes a number at the front of a buffer, and gives how many bytes it took.
#[tactic(auto, using(crate::proofs::Varints::varint_some, crate::proofs::Varints::last_fits, crate::proofs::Varints::writing_last))]
pub fn write_varint(value: u32, out: &mut [u8]) -> Result<usize, Refusal>
    ensures { MatchResult result (λ n. (n ≡ length (varint value)) × (n ≤ length out.old) × (out.new ≡ overlaid out.old 0 (varint value))) (λ e. (e ≡ SmallBuffer (length (varint value))) × (length out.old < length (varint value)) × (out.new ≡ out.old)) }
{
    let needed = varint_size(value);
    if out.len() < needed {
        return Err(Refusal::SmallBuffer { needed });
    }
    let mut rest = value;
    for byte in &mut out[..needed - 1] {
        *byte = 128 + (rest % 128) as u8;
        rest /= 128;
    }
    out[needed - 1] = rest as u8;
    Ok(needed)
}

// The number, where its form is the shortest: that ends in 0 only where it is one byte.
fn shortest(value: u64, size: usize, last: u8) -> Result<Varint, VarintFault>
    ensures { MatchResult result (λ v. (v ≡ record { value = value; size = size }) × (value < 2 ^ 32) × (1 < size → 1 ≤ last)) (λ e. (e ≡ Invalid) × ((2 ^ 32 ≤ value) ⊎ ((1 < size) × (last ≡ 0)))) }
{
    let value = u32::try_from(value).map_err(|_| VarintFault::Invalid)?;
    if size > 1 && last == 0 {
        return Err(VarintFault::Invalid);
    }
    Ok(Varint { value, size })
}

/// Reads a number at the front of some bytes.
#[tactic(auto, using(crate::proofs::VarintReads::weighs, crate::proofs::VarintReads::product_fits))]
pub fn read_varint(bytes: &[u8]) -> Result<Varint, VarintFault>
    ensures value { result ≡ read_varint bytes.now }
    ensures reads_back { (v : ℕ) (rest : List ℕ) → v < 2 ^ 32 → bytes.now ≡ varint v ++ rest → result ≡ Ok (record { value = v; size = length (varint v) }) }
    ensures shortest { IfOk result (λ v. (take v.size bytes.now ≡ varint v.value) × (v.size ≤ length bytes.now) × (v.value < 2 ^ 32)) }
{
    let mut value: u64 = 0;
    let mut weight: u64 = 1;
    for (place, byte) in bytes.iter().enumerate() {
        value += (*byte % 128) as u64 * weight;
        if *byte < 128 {
            return shortest(value, place + 1, *byte);
        }
        if place + 1 == MAX_GROUPS {
            return Err(VarintFault::Invalid);
        }
        weight *= 128;
    }
    Err(VarintFault::EndOfBuffer)
}
