// DBSTREAM's links: the shared density of pairs of micro-clusters, ascending by (lo, hi).
#![tactic(auto)]

mod order;
mod stay;

pub use order::{is_before, key_of, same_ends};
pub use stay::{is_held, retained};
