// Words of 8 bytes, little-endian, as numbers and as doubles, and a double's text: what the programs read and print.
#![tactic(auto)]

mod output;
mod text;
mod word;

pub use output::Output;
pub use text::{Bits, double_text};
pub use word::{double_of, word_at};
