// Figures as text, and a grid of marks: rate to the right, another figure upwards.
#![tactic(auto)]

mod figure;
mod grid;
mod upward;

pub use figure::{add_figure, rounded};
pub use grid::{CELLS, Plot, RIGHT, TOP, WIDTH, add_plot};
pub use upward::Upward;
