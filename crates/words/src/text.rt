// A double as text: the 16 hexadecimal digits of its bits, or the word nan.
ghost use Rattle.std.specs.Prelude.{◌≡◌, Some};
ghost use Rattle.words.specs.Text.{double_text};

use arrayvec::ArrayString;
use std::{fmt, str};

// By the bits, so that no digit is lost; every NaN has one text. The contract of a `fmt` says what it writes only where it answers `Ok`:
// this function gives the text of each double.
pub fn double_text(x: f64) -> ArrayString<16>
    ensures { result.bytes ≡ double_text x }
{
    let mut text = ArrayString::new();
    if x.is_nan() {
        text.push_str("nan");
        return text;
    }
    let mut digits = [0u8; 16];
    let n = io::hex(x.to_bits(), 16, &mut digits);
    text.push_str(str::from_utf8(&digits[..n]).unwrap());
    text
}

// A double that prints as its text.
#[derive(Clone, Copy)]
pub struct Bits(pub f64);

impl fmt::Display for Bits {
    ghost output = { λ b. Some (double_text b.0) };

    fn fmt<W: fmt::Write>(&self, f: &mut fmt::Formatter<W>) -> fmt::Result {
        let text = double_text(self.0);
        f.write_str(text.as_str())
    }
}
