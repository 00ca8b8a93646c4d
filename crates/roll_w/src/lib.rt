// Roll W, the example: the residue keys 2, 3, 5 and 7, fewer than a third faulty, no namespace.
#![tactic(auto)]

ghost use Rattle.std.specs.Prelude.{◌≡◌, []};
ghost use Rattle.buffers.specs.Items.{items};
ghost use Rattle.keys.specs.Bytes.{big_endian};
ghost use Rattle.rolls.specs.Roll.{keys_of};
ghost use Rattle.roll_w.specs.Keys.{keys_of_w};

use keys::ResidueKey;
use list_scheme::ListScheme;
use rolls::{Faults, Member};
use schemes::PlainNamespace;

/// The list scheme of roll W, which is never refused.
#[tactic(auto, using(crate::proofs::Fine::unrefused))]
pub fn roll_of_w() -> ListScheme<ResidueKey, PlainNamespace>
    ensures keys { keys_of (λ k. big_endian 4 k.value) result.roll ≡ keys_of_w }
    ensures faults { result.faults ≡ Faults.N3f1 }
    ensures namespace { items result.namespace.bytes ≡ [] }
{
    ListScheme::verifier(
        &[],
        &[
            Member { key: &[0, 0, 0, 2] },
            Member { key: &[0, 0, 0, 3] },
            Member { key: &[0, 0, 0, 5] },
            Member { key: &[0, 0, 0, 7] },
        ],
        Faults::N3f1,
    )
    .unwrap()
}
