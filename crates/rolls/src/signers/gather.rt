// A set of signers from a list of members.
ghost use Rattle.std.specs.Result.{MatchResult};
ghost use Rattle.rolls.specs.Gathered.{Gathered, Unfit};
ghost use Rattle.rolls.specs.Signers.{bitmap};

use super::Signers;
use refusals::{MAX_MEMBERS, Refusal};

impl Signers {
    /// The set of the members listed, each below the length and none twice.
    pub fn new(length: usize, members: &[u32]) -> Result<Signers, Refusal>
        ensures { MatchResult result (λ s. Gathered length members.now (bitmap s)) (Unfit length members.now) }
    {
        if length > MAX_MEMBERS {
            return Err(Refusal::TooMany { limit: MAX_MEMBERS });
        }
        let mut signers = Signers {
            len: length,
            bits: 0,
        };
        for &index in members {
            if index as usize >= length {
                return Err(Refusal::UnknownSigner { index });
            }
            if signers.contains(index) {
                return Err(Refusal::DuplicateSigner { index });
            }
            signers.bits |= 1u64 << index;
        }
        Ok(signers)
    }
}
