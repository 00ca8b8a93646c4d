// What a bundle holds.
ghost use Rattle.std.specs.Prelude.{◌≡◌, ◌<◌, ◌≤◌, length, MatchOption, slice_index_or};
ghost use Rattle.refusals.specs.Limits.{max_certificates};
ghost use Rattle.bundle.specs.Layout.{Raw};
ghost use Rattle.bundle.specs.Places.{held_by};

use crate::layout::Bundle;

/// An entry's bytes, and the place where its certificate begins.
#[derive(Clone, Copy, PartialEq, Eq)]
pub struct RawEntry<'a> {
    pub message: &'a [u8],
    pub place: usize,
    pub certificate: &'a [u8],
}

impl<'a> Bundle<'a> {
    /// How many entries it holds.
    pub fn count(&self) -> usize
        ensures held { result ≡ length (held_by self.now) }
        ensures few { result ≤ max_certificates }
    {
        self.entries.as_slice().len()
    }

    /// The entry at a place.
    pub fn raw(&self, place: usize) -> Option<RawEntry<'_>>
        ensures { MatchOption result (length (held_by self.now) ≤ place) (λ e. (place < length (held_by self.now)) × ((d : Raw) → slice_index_or (held_by self.now) place d ≡ record { message = e.message.now; place = e.place; certificate = e.certificate.now })) }
    {
        self.entries.as_slice().get(place).copied()
    }
}
