// Links that gain: one pass over the pairs of neighbours and over the links.
#![tactic(auto)]

mod factor;
mod pairs;
mod walk;

pub use pairs::gain_pairs;
