// Bundles of certificates: reading, judging, and the text of verdicts.
#![tactic(auto)]

mod answer;
mod entries;
mod held;
mod input;
mod judgement;
mod judging;
mod layout;
mod reader;
mod text;
mod verdict;

pub use answer::Answer;
pub use entries::BundleEntries;
pub use held::RawEntry;
pub use input::{admit, judge_input};
pub use judgement::Judgement;
pub use judging::judge;
pub use layout::Bundle;
pub use text::{Line, RefusedLine};
pub use verdict::Verdict;
