// DenStream's groups: potential micro-clusters chained by close centres, and their labels.
#![tactic(auto)]

mod groups;
mod pairs;

pub use groups::group_labels;
