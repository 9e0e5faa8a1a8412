// A word in a row of bytes, and the double that has it as bits.
ghost use Rattle.std.specs.Prelude.{◌≡◌};
ghost use Rattle.std.specs.Float.{binary64};
ghost use Rattle.std.specs.Float.Ieee.{of_bits};
ghost use Rattle.words.specs.Word.{word_at};

// The word that starts at a place; bytes past the end count as 0.
pub fn word_at(bytes: &[u8], at: usize) -> u64
    ensures { result ≡ word_at bytes.now at }
{
    let mut word = [0u8; 8];
    if let Some(rest) = bytes.get(at..) {
        let n = rest.len().min(8);
        word[..n].copy_from_slice(&rest[..n]);
    }
    u64::from_le_bytes(word)
}

// The double of these bits; every pattern of a NaN gives the one NaN.
pub fn double_of(word: u64) -> f64
    ensures { result ≡ of_bits binary64 word }
{
    if word % 0x8000_0000_0000_0000 > 0x7ff0_0000_0000_0000 {
        return f64::NAN;
    }
    f64::from_bits(word)
}
