// A roll from raw members.
ghost use Rattle.std.specs.Prelude.{◌≡◌, ℕ, ◌<◌, ◌≤◌, true, [], map, length, MatchOption, MatchResult, slice_index_or};
ghost use Rattle.refusals.specs.declared.refusal.Refusal.TheVariants.{BadRoll};
ghost use Rattle.rolls.specs.Enrolled.{before, Enrolled, Refused};
ghost use Rattle.rolls.specs.Roll.{raw_keys, keys_of};

use super::{Member, Roll};
use buffers::Bounded;
use keys::KeyCheck;
use refusals::{MAX_MEMBERS, Refusal};

// Whether a key stands above the one before it, if there is one: by their bytes, and a key is above its own prefixes.
fn stands_above(below: Option<&[u8]>, key: &[u8]) -> bool
    ensures { MatchOption below.entry (result ≡ true) (λ b. result ≡ before b.now key.now) }
{
    below.is_none_or(|below| below < key)
}

impl<K: KeyCheck> Roll<K> {
    /// The roll of some members: each has a key, above that of the member before.
    pub fn new(members: &[Member<'_>]) -> Result<Roll<K>, Refusal>
        ensures { MatchResult result (λ roll. (keys_of K.KeyCheck.key roll ≡ raw_keys members.now) × Enrolled K.KeyCheck.meaning.is_key (raw_keys members.now)) (λ e. (index : ℕ) × (e ≡ BadRoll index) × Refused K.KeyCheck.meaning.is_key (raw_keys members.now) index) }
    {
        if members.len() > MAX_MEMBERS {
            return Err(Refusal::BadRoll { index: MAX_MEMBERS });
        }
        let first = members
            .first()
            .and_then(|first| K::from_bytes(first.key))
            .ok_or(Refusal::BadRoll { index: 0 })?;
        let mut keys = Bounded::new(first);
        let mut below: Option<&[u8]> = None;
        for (index, member) in members.iter().enumerate() {
            if !stands_above(below, member.key) {
                return Err(Refusal::BadRoll { index });
            }
            let key = K::from_bytes(member.key).ok_or(Refusal::BadRoll { index })?;
            keys.push(key).unwrap();
            below = Some(member.key);
        }
        Ok(Roll { keys })
    }

    /// The members' keys, in order.
    pub fn keys(&self) -> &[K]
        ensures { map K.KeyCheck.key result.now ≡ keys_of K.KeyCheck.key self.now }
    {
        self.keys.as_slice()
    }

    /// How many members there are.
    pub fn len(&self) -> usize
        ensures { result ≡ length (keys_of K.KeyCheck.key self.now) }
    {
        self.keys().len()
    }

    /// A member's key.
    pub fn key(&self, index: usize) -> Option<K>
        ensures { MatchOption result (length (keys_of K.KeyCheck.key self.now) ≤ index) (λ k. (index < length (keys_of K.KeyCheck.key self.now)) × (K.KeyCheck.key k ≡ slice_index_or (keys_of K.KeyCheck.key self.now) index [])) }
    {
        self.keys().get(index).copied()
    }
}
