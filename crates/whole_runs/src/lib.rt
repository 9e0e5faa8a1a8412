// Whole runs: the caller lends the values and gets plain numbers. The crate whole_runs_c exports them to C and Rust.
#![tactic(auto)]

mod db;
mod den;
mod figures;
mod run;
mod window;

pub use db::dbstream_run;
pub use den::denstream_run;
pub use figures::Figures;
pub use window::{WindowFigures, window_run};
