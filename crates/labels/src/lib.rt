// Places that each have a root: their labels, and sums of their weights.
#![tactic(auto)]

mod group;
mod label;

pub use group::sums;
pub use label::{Labelled, labels};
