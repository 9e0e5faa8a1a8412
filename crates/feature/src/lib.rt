// Cluster features: the weight, mean and spread of the points that a micro-cluster took in, and how they fade.
#![tactic(auto)]

mod distance;
mod fading;
mod spherical;

pub use distance::sq_euclidean;
pub use fading::fade;
pub use spherical::Spherical;

// The most coordinates that a point has.
pub const MAX_DIM: usize = 15;
