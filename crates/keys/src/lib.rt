// Payloads, and key checks behind one interface.
#![tactic(auto)]

mod batch;
mod buffer;
mod check;
mod payload;
mod residue;
mod signature;
mod varint;

pub use batch::{BatchEntry, BatchList, BatchReader, verify_batch};
pub use buffer::put;
pub use check::KeyCheck;
pub use payload::union_unique;
pub use residue::ResidueKey;
pub use signature::Signature;
pub use varint::{Varint, VarintFault, read_varint, varint_size, write_varint};
