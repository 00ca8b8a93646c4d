// Namespaces: what a subject's kind makes of a scheme's base namespace.
ghost use Rattle.std.specs.Prelude.{◌≡◌, ℕ, ◌+◌, ◌<◌, ◌≤◌, List, [], ◌++◌, length, MatchResult};
ghost use Rattle.std.proofs.Common.{lit≤};
ghost use Rattle.buffers.specs.Items.{items};
ghost use Rattle.refusals.specs.Limits.{max_namespace};
ghost use Rattle.schemes.specs.Subjects.{plain, edition, longest};
ghost use Rattle.schemes.specs.Namespaces.{cut_short};

use buffers::Bounded;
use refusals::{MAX_NAMESPACE, Refusal};
use std::alloc::AllocError;
use std::marker::PhantomData;

pub trait Namespace: Copy {
    // The namespace that is derived from a base.
    ghost derived: { List ℕ → List ℕ };

    ghost bytes: { Self → List ℕ };

    ghost short: { (n : Self) → length (bytes n) ≤ longest };

    // With a name of its own: as a bound, `TryFrom<&[u8]>` binds a lifetime, and the check does not
    // cover that.
    fn derive(base: &[u8]) -> Result<Self, Refusal>
        ensures { MatchResult result (λ n. (length base.now ≤ max_namespace) × (bytes n ≡ derived base.now)) (λ e. (max_namespace < length base.now) × (e ≡ Refusal.TooMany max_namespace)) };

    fn as_slice(&self) -> &[u8]
        ensures { result.now ≡ bytes self.now };
}

/// What a kind of subject puts behind a base.
pub trait Suffix {
    ghost derived: { List ℕ → List ℕ };

    fn suffix() -> &'static [u8]
        ensures behind { (base : List ℕ) → derived base ≡ base ++ result.now }
        ensures short { length result.now ≤ 2 };
}

/// No suffix.
pub struct Plain;

impl Suffix for Plain {
    ghost derived = { plain };

    fn suffix() -> &'static [u8] {
        b""
    }
}

/// The suffix `-E`.
pub struct EditionMark;

impl Suffix for EditionMark {
    ghost derived = { edition };

    fn suffix() -> &'static [u8] {
        b"-E"
    }
}

// The most bytes of a base with its suffix.
const MAX_DERIVED: usize = MAX_NAMESPACE + 2;

/// A base with a suffix behind it.
#[derive_where(Copy)]
pub struct Suffixed<S: Suffix> {
    bytes: Bounded<u8, MAX_DERIVED>,
    kind: PhantomData<S>,
    ghost within: { length (items bytes) ≤ max_namespace + length (S.Suffix.derived []) },
}

// By hand: no derive makes `Clone` for a generic struct with a ghost field.
impl<S: Suffix> Clone for Suffixed<S> {
    ghost is_clone = { λ a b. b ≡ a };

    ghost is_infallible = { λ _. Unit {0} };

    fn clone(&self) -> Result<Suffixed<S>, AllocError> {
        Ok(*self)
    }
}

/// The base as it is.
pub type PlainNamespace = Suffixed<Plain>;

/// The base, then `-E`.
pub type EditionNamespace = Suffixed<EditionMark>;

impl<S: Suffix> Namespace for Suffixed<S> {
    ghost derived = { S.Suffix.derived };

    ghost bytes = { λ n. items n.bytes };

    ghost short = { λ n. cut_short n.bytes.len n.bytes.table 66 n.bytes.within (lit≤ tt) };

    fn derive(base: &[u8]) -> Result<Suffixed<S>, Refusal> {
        if base.len() > MAX_NAMESPACE {
            return Err(Refusal::TooMany {
                limit: MAX_NAMESPACE,
            });
        }
        let mut bytes = Bounded::new(0);
        bytes.extend_from_slice(base).unwrap();
        bytes.extend_from_slice(S::suffix()).unwrap();
        Ok(Suffixed {
            bytes,
            kind: PhantomData,
        })
    }

    fn as_slice(&self) -> &[u8] {
        self.bytes.as_slice()
    }
}
