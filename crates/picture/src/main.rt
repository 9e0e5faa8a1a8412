// Reads an input from standard input and prints its families in words and as a picture. As `families`, but for the function and its
// room: what both would share has to be given the function, and is no shorter.
#![tactic(auto)]

use words::Output;

fn main(rt: HostRuntime) {
    let mut room = [0u8; input::ROOM];
    let n = input::read(&mut rt.stdin(), &mut room).unwrap_or(0);
    let mut output = [0u8; text::ROOM];
    if let Ok(m) = picture_text::picture(&room[..n], &mut output) {
        let _written = Output.write_all(&output[..m]);
    }
}
