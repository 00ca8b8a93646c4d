// Lists of bounded length in fixed memory, and bytes that are read from the front.
#![tactic(auto)]

mod items;
mod rest;
mod table;

pub use rest::Rest;
pub use table::Bounded;
