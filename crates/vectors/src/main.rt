// Runs exp2, ln, log2, ceil and sqrt on stored arguments and prints every result by its bits; the gate compares the text
// with the file stdout. The expected results of exp2, ln and log2 are those of document 01's stand-ins in Rust (tools/oracle),
// those of ceil and sqrt are IEEE hardware's.
#![tactic(auto)]

mod function;

use function::Function;
use words::{Bits, Output, double_of, word_at};

const STDIN: i32 = 0;

// The most records that are read.
const RECORDS: usize = 65536;

// Two words, a function's number and its argument's bits; none where the input ends. Any other number is taken for that of sqrt.
fn record() -> Option<(Function, f64)> {
    let mut pair = [0u8; 16];
    if io::read_full(STDIN, &mut pair) < 16 {
        return None;
    }
    let function = Function::try_from(word_at(&pair, 0)).unwrap_or(Function::Sqrt);
    Some((function, double_of(word_at(&pair, 8))))
}

fn main() {
    for _ in 0..RECORDS {
        let Some((function, x)) = record() else {
            return;
        };
        let _said = println!(Output; "{function} {} {}", Bits(x), Bits(function.of(x)));
    }
}
