// The refusals of every call, the faults of bytes, and the limits.
#![tactic(auto)]

mod fault;
mod limits;
mod refusal;

pub use fault::{BitmapFault, BundleFault, CertificateFault, FaultKind, Layer, Placed};
pub use limits::{
    MAX_ATTESTATIONS, MAX_CERTIFICATES, MAX_INPUT, MAX_KEY, MAX_MEMBERS, MAX_MESSAGE,
    MAX_NAMESPACE, MAX_PAYLOAD, MAX_SIGNATURE, limits_stand,
};
pub use refusal::{Refusal, Values};
