// A bundle without faults of its own.
ghost use Rattle.std.specs.Prelude.{map};
ghost use Rattle.std.proofs.Props.{props};
ghost use Rattle.buffers.specs.Items.{items};
ghost use Rattle.bundle.specs.Layout.{Limited};
ghost use Rattle.bundle.specs.Raws.{raw_of};

use crate::held::RawEntry;
use buffers::Bounded;
use refusals::MAX_CERTIFICATES;

/// The entries of a bundle, which lie in its bytes.
#[derive(Clone, Copy)]
pub struct Bundle<'a> {
    pub(crate) entries: Bounded<RawEntry<'a>, MAX_CERTIFICATES>,
    ghost limited: { Limited (map raw_of (items entries)) } by { Prim.hlevel props },
}
