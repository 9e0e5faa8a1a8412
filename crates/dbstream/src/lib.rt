// DBSTREAM (Hahsler and Bolaños): micro-clusters that fade, joined by shared density.
#![tactic(auto)]

mod cleanup;
mod cluster;
mod insert;
mod kind;
mod opening;
mod stream;
mod tick;

pub use model::{Clustered, Inserted, Opened};
pub use stream::DbStream;
