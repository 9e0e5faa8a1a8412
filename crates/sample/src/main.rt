// Writes a made-up session, as `families` reads it, to standard output.
#![tactic(auto)]

use text::ROOM;
use words::Output;

fn main() {
    let mut output = [0u8; ROOM];
    if let Ok(n) = sample_session::session(&mut output) {
        let _written = Output.write_all(&output[..n]);
    }
}
