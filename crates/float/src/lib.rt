// Exact doubles: document 01's stand-ins for the functions of doubles that the Rust takes from its library.
#![tactic(auto)]

mod binary64;
mod ceiling;
mod logarithm;
mod order;
mod two_to;

pub use ceiling::ceil;
pub use logarithm::{ln, log2};
pub use order::{is_finite, max, min};
pub use two_to::exp2;
