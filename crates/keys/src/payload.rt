// The payload that is signed: a namespace behind its length, then the message.
ghost use Rattle.std.specs.Prelude.{◌≡◌, MatchResult, OnOk};
ghost use Rattle.keys.specs.Payload.{PayloadWritten, PayloadRefused, Alone};

use crate::buffer::overlay;
use crate::varint::{varint_size, write_varint};
use refusals::Refusal;

// The longest namespace whose length has a varint.
const MAX_LENGTH: usize = u32::MAX as usize;

/// Writes the payload of a namespace and a message at the front of a buffer, and gives its length.
pub fn union_unique(namespace: &[u8], message: &[u8], out: &mut [u8]) -> Result<usize, Refusal>
    ensures written { MatchResult result (λ n. PayloadWritten namespace.now message.now out.old out.new n) (λ e. PayloadRefused namespace.now message.now out.old e × (out.new ≡ out.old)) }
    ensures alone { OnOk result (Alone namespace.now message.now) }
{
    let size = u32::try_from(namespace.len()).map_err(|_| Refusal::TooMany { limit: MAX_LENGTH })?;
    let prefix = varint_size(size) + namespace.len();
    let needed = prefix.saturating_add(message.len());
    if out.len() < needed {
        return Err(Refusal::SmallBuffer { needed });
    }
    let start = write_varint(size, out)?;
    overlay(out, start, namespace);
    overlay(out, prefix, message);
    Ok(needed)
}
