// Subjects, certificates and schemes of signatures, and what they mean.
#![tactic(auto)]

mod attestation;
mod certificate;
mod namespace;
mod payload;
mod scheme;
mod subject;

pub use attestation::{Attestation, Verification};
pub use certificate::{Certificate, Entries, Entry, Verifier};
pub use namespace::{
    EditionMark, EditionNamespace, Namespace, Plain, PlainNamespace, Suffix, Suffixed,
};
pub use payload::write_payload;
pub use scheme::Scheme;
pub use subject::{Edition, Message, Subject};
