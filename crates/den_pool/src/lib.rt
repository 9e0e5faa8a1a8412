// A pool of DenStream's micro-clusters, potential ones or outliers: their weights, who stays, the trial of the nearest.
#![tactic(auto)]

mod micro;
mod pool;
mod pruning;
mod trial;

pub use micro::newborn;
pub use pool::{faded_weights, without};
pub use pruning::{outlier_stays, potential_stays};
pub use trial::{Absorbed, Trial, try_merge};
