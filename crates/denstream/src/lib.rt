// DenStream (Cao): two pools of fading micro-clusters, potential ones and outliers.
#![tactic(auto)]

mod cleanup;
mod cluster;
mod insert;
mod kind;
mod opening;
mod stream;
mod tick;

pub use model::{Clustered, Inserted, Opened};
pub use stream::DenStream;
