// Document 02, item 5: what no run can reach, tried on made-up states. The clock and the values taken just below their limit, a window
// with all places filled that so many values fill, and the cleanup of the slowest fading. The gate compares the text with the file stdout,
// which is the Rust's (tools/oracle).
#![tactic(auto)]

mod db;
mod den;
mod taker;
mod window;

use words::Output;

fn main() {
    let _window = window::last_values(&Output);
    let _db = db::last_inserts(&Output);
    let _cleanup = db::slowest_cleanup(&Output);
    let _den = den::last_inserts(&Output);
    let _pruning = den::slowest_pruning(&Output);
}
