// The items of a bounded list.
ghost use Rattle.std.specs.Prelude.{◌≡◌, ◌+◌, ◌<◌, ◌≤◌, [], ◌∷◌, ◌++◌, length, replicate, MatchOption};
ghost use Rattle.buffers.specs.Items.{items};

use crate::table::Bounded;

// All but `extend_repeated` are always inlined: LLVM else hands a list of large items on one item after the other.
impl<T: Copy, const N: usize> Bounded<T, N> {
    /// An empty list; a blank lies in each free place.
    #[inline(always)]
    pub fn new(blank: T) -> Bounded<T, N>
        ensures { items result ≡ [] }
    {
        Bounded {
            table: [blank; N],
            len: 0,
        }
    }

    /// Puts an item behind the others; `None`, and nothing changes, without room.
    #[inline(always)]
    pub fn push(&mut self, item: T) -> Option<()>
        ensures { MatchOption result ((length (items self.old) ≡ N) × (self.new ≡ self.old)) (λ _. items self.new ≡ items self.old ++ item ∷ []) }
    {
        if self.len == N {
            return None;
        }
        self.table[self.len] = item;
        self.len += 1;
        Some(())
    }

    /// Puts items behind the others; `None`, and nothing changes, without room for all.
    #[inline(always)]
    pub fn extend_from_slice(&mut self, more: &[T]) -> Option<()>
        ensures { MatchOption result ((N < length (items self.old) + length more.now) × (self.new ≡ self.old)) (λ _. items self.new ≡ items self.old ++ more.now) }
    {
        if more.len() > N - self.len {
            return None;
        }
        let end = self.len + more.len();
        // In two steps: no part of an array of a length `N` can be lent, and a part of its slice can.
        let room = &mut self.table[..];
        room[self.len..end].copy_from_slice(more);
        self.len = end;
        Some(())
    }

    /// Puts an item behind the others, so many times; `None`, and nothing changes, without room for all.
    pub fn extend_repeated(&mut self, item: T, count: usize) -> Option<()>
        ensures { MatchOption result ((N < length (items self.old) + count) × (self.new ≡ self.old)) (λ _. items self.new ≡ items self.old ++ replicate count item) }
    {
        if count > N - self.len {
            return None;
        }
        let room = &mut self.table[..];
        for slot in &mut room[self.len..self.len + count] {
            *slot = item;
        }
        self.len += count;
        Some(())
    }

    /// The items, in order.
    #[inline(always)]
    pub fn as_slice(&self) -> &[T]
        ensures items { result.now ≡ items self.now }
        ensures few { length result.now ≤ N }
    {
        &self.table[..self.len]
    }
}
