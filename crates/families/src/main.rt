// Reads an input from standard input and prints its families. As `picture`, but for the function and its room.
#![tactic(auto)]

use words::Output;

fn main(rt: HostRuntime) {
    let mut room = [0u8; input::ROOM];
    let n = input::read(&mut rt.stdin(), &mut room).unwrap_or(0);
    let mut output = io::buffer();
    if let Ok(m) = families_text::families(&room[..n], &mut output) {
        let _written = Output.write_all(&output[..m]);
    }
}
