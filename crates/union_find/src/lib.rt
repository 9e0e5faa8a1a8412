// Joined pairs of places, and the root of each place.
#![tactic(auto)]

mod forest;

pub use forest::{Rooted, Work, roots};

// How many places there are.
pub const PLACES: usize = 64;
