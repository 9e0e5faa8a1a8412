// What both streams read out: the nearest micro-cluster and a point's label, the labels and how many
// clusters they name, and the micro-clusters' statistics.
#![tactic(auto)]

mod distances;
mod label_readout;
mod prediction;
mod stats;

pub use distances::{Found, nearest, nearest_by};
pub use label_readout::{n_clusters, read_labels};
pub use prediction::predict;
pub use stats::statistics;
