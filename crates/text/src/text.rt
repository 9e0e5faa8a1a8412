// A text that grows piece by piece; what its room cannot take is cut off.
ghost use Rattle.std.specs.Prelude.{◌≡◌, ◌≤◌, [], ◌∷◌, length, IfOk};

use crate::writing::write;
use itoa::Buffer;
use model::TooShort;

// Room for every text of the programs: `families` has 64 lines of at most 43 bytes and a last one of at most 56, a picture at most 9,628 bytes.
pub const ROOM: usize = 16384;

// The first `len` of the bytes. An array with a count, document 01's form of a Vec: so a text is Copy and given back by value, as an
// ArrayVec is not.
#[derive(Clone, Copy)]
pub struct Text {
    pub bytes: [u8; ROOM],
    pub len: usize,
    // It always holds: so many bytes the array has.
    ghost full: { length bytes ≡ 16384 },
}

// Methods and no `write!`: of it std's contracts say what was written only where the writer did not fail, and they know no writer that never fails.
impl Text {
    ghost use Rattle.text.specs.Text.{text_of, Added, blanks};
    ghost use Rattle.text.specs.Decimal.{decimal, integer, right};
    ghost use Rattle.text.specs.Lent.{write_told, write_of};

    // A text with nothing in it.
    pub fn new() -> Self
        ensures empty { text_of result ≡ [] }
        ensures len { result.len ≡ 0 }
    {
        Self {
            bytes: [0; ROOM],
            len: 0,
        }
    }

    // The piece at the end of the text; what the room cannot take is cut off.
    pub fn add(&mut self, piece: &[u8])
        ensures { Added self.old piece.now self.new }
    {
        let at = self.len.min(ROOM);
        let n = piece.len().min(ROOM - at);
        self.bytes[at..at + n].copy_from_slice(&piece[..n]);
        self.len = at + n;
    }

    // One byte at the end.
    pub fn add_byte(&mut self, byte: u8)
        ensures { Added self.old (byte ∷ []) self.new }
    {
        self.add(&[byte]);
    }

    // n blanks at the end.
    pub fn add_blanks(&mut self, n: usize)
        ensures { Added self.old (blanks n) self.new }
    {
        for _i in 0..n {
            self.add_byte(b' ');
        }
    }

    // The digits, no zero in front.
    pub fn add_number(&mut self, n: u64)
        ensures { Added self.old (decimal n) self.new }
    {
        self.add(Buffer::new().format(n).as_bytes());
    }

    // A sign if it is below 0, and the digits.
    pub fn add_integer(&mut self, value: i64)
        ensures { Added self.old (integer value) self.new }
    {
        self.add(Buffer::new().format(value).as_bytes());
    }

    // A sign and a number of at least as many places as the width says, blanks in front.
    pub fn add_right(&mut self, width: usize, sign: u8, n: u64)
        ensures { Added self.old (right width sign n) self.new }
    {
        let mut buffer = Buffer::new();
        let digits = buffer.format(n).as_bytes();
        self.add_blanks(width.saturating_sub(digits.len()));
        self.add_byte(sign);
        self.add(digits);
    }

    // All of it at the start of the output, if that has a place for each byte: how many they are. A count, and no slice of what was
    // written: as for document 01's read-outs the contract tells the whole lent slice afterwards, so it stays the caller's to cut, and
    // `in_bounds`, here and in the calls above, is that the cut is inside.
    pub fn write(&self, output: &mut [u8]) -> Result<usize, TooShort>
        ensures told { write_told result output.new ≡ write_of (text_of self.now) output.old }
        ensures in_bounds { IfOk result (λ n. n ≤ length output.new) }
    {
        write(&self.bytes[..self.len.min(ROOM)], output)
    }
}
