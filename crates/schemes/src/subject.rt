// Subjects, and the namespaces that they are signed under.
ghost use Rattle.std.specs.Prelude.{◌≡◌};
ghost use Rattle.schemes.specs.Subjects.{Said, edition_message};

use crate::namespace::{EditionNamespace, Namespace};
use std::marker::PhantomData;

pub trait Subject {
    type Namespace: Namespace;

    ghost said: { Self → Said };

    fn namespace<'a>(&self, derived: &'a Self::Namespace) -> &'a [u8]
        ensures { result.now ≡ Self.Namespace.Namespace.bytes derived.now }
    {
        derived.as_slice()
    }

    fn message(&self) -> &[u8]
        ensures { result.now ≡ (said self.now).message };
}

/// A message of any bytes, under the namespaces of a kind of subject.
#[derive_where(Clone, Copy, PartialEq, Eq)]
pub struct Message<'a, N> {
    bytes: &'a [u8],
    kind: PhantomData<N>,
}

impl<'a, N> Message<'a, N> {
    pub fn new(bytes: &'a [u8]) -> Message<'a, N>
        ensures { result.bytes.now ≡ bytes.now }
    {
        Message {
            bytes,
            kind: PhantomData,
        }
    }
}

impl<'a, N: Namespace> Subject for Message<'a, N> {
    type Namespace = N;

    ghost said = { λ s. record { message = s.bytes.now } };

    fn message(&self) -> &[u8] {
        self.bytes
    }
}

const EDITION_MESSAGE: usize = 72;

/// An edition of a channel's schedule.
#[derive(Clone, Copy, PartialEq, Eq)]
pub struct Edition {
    bytes: [u8; EDITION_MESSAGE],
}

impl Edition {
    /// `seconds` are counted since 1970-01-01 00:00 UTC; the digest is the playlist's.
    pub fn from_digest(channel: u16, seconds: u32, number: u16, digest: &[u8; 64]) -> Edition
        ensures { result.bytes ≡ edition_message channel seconds number digest.now }
    {
        let day = seconds / 86_400;
        let mut bytes = [0u8; EDITION_MESSAGE];
        bytes[0..2].copy_from_slice(&channel.to_be_bytes());
        bytes[2..6].copy_from_slice(&day.to_be_bytes());
        bytes[6..8].copy_from_slice(&number.to_be_bytes());
        bytes[8..].copy_from_slice(digest);
        Edition { bytes }
    }
}

impl Subject for Edition {
    type Namespace = EditionNamespace;

    ghost said = { λ s. record { message = s.bytes } };

    fn message(&self) -> &[u8] {
        &self.bytes
    }
}
