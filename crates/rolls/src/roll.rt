// A roll of members, each with a key.
ghost use Rattle.std.specs.Prelude.{◌≡◌, map};
ghost use Rattle.buffers.specs.Items.{items};
ghost use Rattle.rolls.specs.Enrolled.{Enrolled};

use buffers::Bounded;
use keys::KeyCheck;
use refusals::MAX_MEMBERS;
use std::alloc::AllocError;

mod enroll;

/// A member as given: the bytes of its key.
#[derive(Clone, Copy, PartialEq, Eq)]
pub struct Member<'a> {
    pub key: &'a [u8],
}

/// The keys of at least one member and at most 64, in ascending order; `new` makes it.
#[derive(Copy)]
pub struct Roll<K: KeyCheck> {
    keys: Bounded<K, MAX_MEMBERS>,
    ghost enrolled: { Enrolled K.KeyCheck.meaning.is_key (map K.KeyCheck.key (items keys)) },
}

// By hand: no derive makes `Clone` for a generic struct with a ghost field.
impl<K: KeyCheck> Clone for Roll<K> {
    ghost is_clone = { λ a b. b ≡ a };

    ghost is_infallible = { λ _. Unit {0} };

    fn clone(&self) -> Result<Roll<K>, AllocError> {
        Ok(*self)
    }
}
