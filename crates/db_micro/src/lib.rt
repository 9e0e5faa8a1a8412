// DBSTREAM's micro-clusters: what is read out of them, and what a cleanup leaves.
#![tactic(auto)]

mod cleanup;
mod parts;

pub use cleanup::retained;
pub use parts::{ids_of, strong_ones};
