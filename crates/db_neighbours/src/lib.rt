// A point among DBSTREAM's micro-clusters: a scan finds its neighbours, and they absorb it; with none, it is a new one.
#![tactic(auto)]

mod absorption;
mod nearest;
mod scan;

pub use absorption::with_point;
pub use scan::{Scan, scan_for};
