// Document 01's readings to try: those that are not marked, run and printed; the gate compares the text with the file stdout,
// which is written from document 01 by hand. The marked ones are a theorem, crates/model/specs/Laws/Examples.antt.
#![tactic(auto)]

mod groups;
mod window;

use words::Output;

fn main() {
    let _window = window::zeros_then_hundreds(&Output);
    let _groups = groups::three_zeros(&Output);
}
