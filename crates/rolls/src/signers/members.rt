// The members of a set of signers.
ghost use Rattle.std.specs.Prelude.{◌≡◌, ℕ, ◌<◌, ◌≤◌, true, false, length, MatchOption};
ghost use Rattle.rolls.specs.Bitmap.{has, members};
ghost use Rattle.rolls.specs.Signers.{bitmap};

use super::Signers;

impl Signers {
    /// The length: each member is below it.
    pub fn len(&self) -> usize
        ensures { result ≡ (bitmap self.now).len }
    {
        self.len
    }

    /// How many members there are.
    pub fn count(&self) -> usize
        ensures { result ≡ length (members (bitmap self.now)) }
    {
        self.bits.count_ones() as usize
    }

    pub fn contains(&self, member: u32) -> bool
        ensures { result ≡ has (bitmap self.now).bits member }
    {
        self.bits
            .checked_shr(member)
            .is_some_and(|bits| bits % 2 == 1)
    }

    /// The smallest member at or above an index.
    pub fn next_member(&self, from: u32) -> Option<u32>
        ensures { MatchOption result ((i : ℕ) → from ≤ i → has (bitmap self.now).bits i ≡ false) (λ i. (from ≤ i) × (has (bitmap self.now).bits i ≡ true) × ((k : ℕ) → from ≤ k → k < i → has (bitmap self.now).bits k ≡ false)) }
    {
        (from..self.len as u32).find(|&index| self.contains(index))
    }
}
