// The one reading of a whole input: `families` and `picture` lend it their standard input, picture_cases a reader that fails.
#![tactic(auto)]

ghost use Rattle.std.specs.Prelude.{◌≤◌, length, IfOk};
ghost use Rattle.io.specs.Counts.{IsPrefixLen};
ghost use Rattle.input.specs.Read.{Read};

use std::io::Read;
use text::TooShort;

// One byte more than an input may have.
pub const ROOM: usize = 65537;

// Until the input ends or the room is full; where a read fails, no bytes, which are no input. A loop over the reads: std's own go on
// into a Vec or want a whole slice full.
fn read_all<R: Read>(reader: &mut R, room: &mut [u8]) -> usize
    ensures { IsPrefixLen result room.new }
{
    let mut done: usize = 0;
    while done < room.len() {
        let Ok(more) = reader.read(&mut room[done..]) else {
            return 0;
        };
        if more == 0 {
            return done;
        }
        done += more;
    }
    done
}

// The bytes of a whole input, or the first ROOM of them; none where a read fails. What they are no contract can say.
pub fn read<R: Read>(reader: &mut R, room: &mut [u8]) -> Result<usize, TooShort>
    ensures told { Read result room.old room.new }
    ensures in_bounds { IfOk result (λ n. n ≤ length room.new) }
{
    let mut bytes = [0u8; ROOM];
    let n = read_all(reader, &mut bytes);
    text::write(&bytes[..n], room)
}
