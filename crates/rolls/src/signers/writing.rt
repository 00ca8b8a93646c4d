// A set of signers as bytes.
ghost use Rattle.std.specs.Prelude.{◌≡◌, ◌++◌, OnOk};
ghost use Rattle.keys.specs.Bytes.{big_endian, little_endian};
ghost use Rattle.rolls.specs.Signers.{bitmap, written_size, LaidOut, Written};

use super::Signers;
use keys::put;
use refusals::Refusal;

impl Signers {
    /// How many bytes the set is written in.
    pub fn size(&self) -> usize
        ensures { result ≡ written_size (bitmap self.now) }
    {
        8 + self.len.div_ceil(8)
    }

    // The length, and all eight bytes of the bits.
    fn bytes(&self) -> [u8; 16]
        ensures { result ≡ big_endian 8 self.now.len ++ little_endian 8 self.now.bits }
    {
        let mut bytes = [0; 16];
        bytes[..8].copy_from_slice(&(self.len as u64).to_be_bytes());
        bytes[8..].copy_from_slice(&self.bits.to_le_bytes());
        bytes
    }

    /// Writes the set at the front of a buffer, and gives its size.
    pub fn write(&self, out: &mut [u8]) -> Result<usize, Refusal>
        ensures written { Written (bitmap self.now) out.old out.new result }
        ensures laid_out { OnOk result (LaidOut (bitmap self.now) out.new) }
    {
        let size = self.size();
        put(out, 0, &self.bytes()[..size]).ok_or(Refusal::SmallBuffer { needed: size })
    }
}
