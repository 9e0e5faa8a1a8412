// The buckets of a window, and whether a cut of the window after one of them fails.
#![tactic(auto)]

mod bucket;
mod cut;
mod search;

pub use bucket::Bucket;
pub use cut::CutTest;
pub use search::{PLACES, some_fails};
