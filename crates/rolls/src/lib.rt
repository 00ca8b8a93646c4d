// Rolls of members, sets of signers, and quorums.
#![tactic(auto)]

mod faults;
mod roll;
mod signers;

pub use faults::Faults;
pub use roll::{Member, Roll};
pub use signers::Signers;
