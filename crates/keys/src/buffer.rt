// Writing into a lent buffer.
ghost use Rattle.std.specs.Prelude.{◌≡◌, ◌+◌, ◌<◌, ◌≤◌, length, MatchOption};
ghost use Rattle.keys.specs.Bytes.{overlaid};

/// Writes bytes at a place of a buffer, and gives the place behind them. `None`, and nothing is written, without room.
pub fn put(out: &mut [u8], at: usize, bytes: &[u8]) -> Option<usize>
    ensures { MatchOption result ((length out.old < at + length bytes.now) × (out.new ≡ out.old)) (λ end. (end ≡ at + length bytes.now) × (end ≤ length out.old) × (out.new ≡ overlaid out.old at bytes.now)) }
{
    let end = at.checked_add(bytes.len()).filter(|end| *end <= out.len())?;
    overlay(out, at, bytes);
    Some(end)
}

// Writes bytes at a place that has room for them.
pub(crate) fn overlay(out: &mut [u8], at: usize, bytes: &[u8])
    requires { at + length bytes.now ≤ length out.old }
    ensures { out.new ≡ overlaid out.old at bytes.now }
{
    out[at..at + bytes.len()].copy_from_slice(bytes);
}
