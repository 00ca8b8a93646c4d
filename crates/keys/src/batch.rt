// Many signatures in one call.
ghost use Rattle.std.specs.Prelude.{◌≡◌, ◌<◌, ◌≤◌, List, map, length, MatchOption, slice_index_or};
ghost use Rattle.keys.specs.Batch.{entry_of};
ghost use Rattle.keys.specs.Meaning.{Entry, no_entry, all_good};

use crate::check::KeyCheck;

#[derive(Clone, Copy, PartialEq, Eq)]
pub struct BatchEntry<'a, K> {
    pub key: K,
    pub payload: &'a [u8],
    pub signature: &'a [u8],
}

/// A batch that is read entry by entry.
// A batch need not lie in a list; over an iterator's bound a public function would need a `requires`.
pub trait BatchReader<K: KeyCheck> {
    ghost entries: { Self → List Entry };

    fn len(&self) -> usize
        ensures { result ≡ length (entries self.now) };

    fn entry(&self, place: usize) -> Option<BatchEntry<'_, K>>
        ensures { MatchOption result (length (entries self.now) ≤ place) (λ e. (place < length (entries self.now)) × (slice_index_or (entries self.now) place no_entry ≡ entry_of K.KeyCheck.key e)) };
}

pub fn verify_batch<K: KeyCheck, R: BatchReader<K>>(reader: &R) -> bool
    ensures { result ≡ all_good K.KeyCheck.meaning (R.BatchReader.entries reader.now) }
{
    (0..reader.len()).all(|place| {
        reader
            .entry(place)
            .is_some_and(|entry| entry.key.verify(entry.payload, entry.signature))
    })
}

/// A batch that lies in a list.
#[derive(Clone, Copy, PartialEq, Eq)]
pub struct BatchList<'a, 'b, K> {
    pub entries: &'a [BatchEntry<'b, K>],
}

impl<'a, 'b, K: KeyCheck> BatchReader<K> for BatchList<'a, 'b, K> {
    ghost entries = { λ s. map (entry_of K.KeyCheck.key) s.entries.now };

    fn len(&self) -> usize {
        self.entries.len()
    }

    fn entry(&self, place: usize) -> Option<BatchEntry<'_, K>> {
        self.entries.get(place).copied()
    }
}
