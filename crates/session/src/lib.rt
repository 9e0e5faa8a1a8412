// Whole lists of inserts: a stream is opened, every insert of a lent list is made, and the stream is clustered.
#![tactic(auto)]

mod db;
mod den;
mod refusal;
mod whole;

pub use db::dbstream_session;
pub use den::denstream_session;
pub use refusal::Refusal;
pub use whole::{Session, whole_run};
