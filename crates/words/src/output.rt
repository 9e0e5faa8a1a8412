// What the programs print through: C's `write` alone. std's runtime also asks why a write failed, which no program here tells.
ghost use Rattle.std.specs.Prelude.{◌≡◌, Ok};

use arrayvec::ArrayString;
use std::fmt;
use std::fmt::{Display, Formatter};
use std::io::Result;

const STDOUT: i32 = 1;

// The most bytes that wait.
const ROOM: usize = 1024;

// Standard output. A failed write is passed over.
#[derive(Clone, Copy)]
pub struct Output;

// Text that waits, so that a line is one write.
#[derive(Drop)]
struct Waiting(ArrayString<ROOM>);

impl Waiting {
    fn new() -> Self {
        Self(ArrayString::new())
    }

    fn flush(&mut self) {
        io::write_all(STDOUT, self.0.as_str().as_bytes());
        self.0.clear();
    }
}

impl fmt::Write for Waiting {
    // A piece that finds no room is written behind what waits.
    fn write_str(&mut self, piece: &str) -> fmt::Result {
        if self.0.try_push_str(piece).is_err() {
            self.flush();
            io::write_all(STDOUT, piece.as_bytes());
        }
        Ok(())
    }
}

// None of these fails: what they write no contract can say.
impl Print for Output {
    fn print<D: Display + Drop>(&self, value: D) -> Result<()>
        ensures { result ≡ Ok tt }
    {
        let mut f = Formatter::new(Waiting::new());
        let _printed = f.write(&value);
        f.into_inner().flush();
        Ok(())
    }

    fn println<D: Display + Drop>(&self, value: D) -> Result<()>
        ensures { result ≡ Ok tt }
    {
        let mut f = Formatter::new(Waiting::new());
        let _written = f.write(&value);
        let _ended = f.write("\n");
        f.into_inner().flush();
        Ok(())
    }

    fn write_all(&self, bytes: &[u8]) -> Result<()>
        ensures { result ≡ Ok tt }
    {
        io::write_all(STDOUT, bytes);
        Ok(())
    }
}
