// Weight sources.
#![tactic(auto)]

mod weights;

pub use weights::{Counting, Weight, Weights};
