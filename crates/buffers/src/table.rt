// A list of bounded length, in fixed memory.
ghost use Rattle.std.specs.Prelude.{◌≡◌, ◌≤◌, length};

use std::alloc::AllocError;

/// A list of at most `N` items, which lie in the value itself.
// Not the kit's `ArrayVec`, which is not `Copy` and needs a default item: a rule of the project is that its values are copied.
#[derive(Copy)]
pub struct Bounded<T, const N: usize> {
    pub(crate) table: [T; N],
    pub(crate) len: usize,
    ghost long: { length table ≡ N },
    ghost within: { len ≤ N },
}

// By hand: no derive makes `Clone` for a generic struct with a ghost field.
impl<T: Copy, const N: usize> Clone for Bounded<T, N> {
    ghost is_clone = { λ a b. b ≡ a };

    ghost is_infallible = { λ _. Unit {0} };

    fn clone(&self) -> Result<Bounded<T, N>, AllocError> {
        Ok(*self)
    }
}
