// Text that grows in place: pieces and decimal numbers added at its end, and all of it in a lent slice.
#![tactic(auto)]

mod refusal;
mod text;
mod writing;

pub use model::TooShort;
pub use refusal::refused;
pub use text::{ROOM, Text};
pub use writing::write;
