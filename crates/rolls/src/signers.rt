// A set of signers, below a length.
ghost use Rattle.std.specs.Prelude.{◌^◌, ◌<◌, ◌≤◌};

mod gather;
mod members;
mod reading;
mod writing;

/// The members of a set, as the bits of a number: no bit stands at or above the length.
#[derive(Clone, Copy, PartialEq, Eq)]
pub struct Signers {
    len: usize,
    bits: u64,
    ghost within: { len ≤ 64 },
    ghost fits: { bits < 2 ^ len },
}
