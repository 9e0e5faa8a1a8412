// Records of standard input: an operation's number, a count of at most 64, and that many operand words.
use crate::operation::{OPERANDS, Operation};
use words::word_at;

const STDIN: i32 = 0;

// A record that is cut short, has too many operands, or the wrong number for its operation, or no operation's number.
#[derive(Clone, Copy)]
pub struct Malformed;

// The next operation; none at the end of the input.
pub fn next_operation() -> Result<Option<Operation>, Malformed> {
    let mut head = [0u8; 16];
    let got = io::read_full(STDIN, &mut head);
    if got == 0 {
        return Ok(None);
    }
    let count = word_at(&head, 8);
    if got < 16 || count > OPERANDS as u64 {
        return Err(Malformed);
    }
    let mut bytes = [0u8; 8 * OPERANDS];
    let due = 8 * count as usize;
    if io::read_full(STDIN, &mut bytes[..due]) < due {
        return Err(Malformed);
    }
    let mut words = [0; OPERANDS];
    let operands = &mut words[..count as usize];
    for (operand, bytes) in operands.iter_mut().zip(bytes.chunks_exact(8)) {
        *operand = word_at(bytes, 0);
    }
    Ok(Some(Operation::new(word_at(&head, 0), operands)?))
}
