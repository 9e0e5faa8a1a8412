// Where a DenStream puts a point: tried in the potential pool, then among the outliers, else a new outlier.
#![tactic(auto)]

mod choice;
mod counts;

pub use choice::{Placed, Placement, Target, place};
pub use counts::{outliers_held, potential_held};
