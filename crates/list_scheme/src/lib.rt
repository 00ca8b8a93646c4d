// The list scheme: a certificate lists the signature of each member.
#![tactic(auto)]

mod certificate;
mod made;
mod reading;
mod scheme;

pub use certificate::ListCertificate;
pub use scheme::ListScheme;
