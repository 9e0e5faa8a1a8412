// The shared density of two micro-clusters.
ghost use Rattle.std.specs.Prelude.{◌≡◌};

use crate::micro::MicroId;

// Its ends' creation numbers, the smaller first, its value, and the clock at its latest gain.
#[derive(Clone, Copy)]
pub struct Link {
    pub lo: MicroId,
    pub hi: MicroId,
    pub value: f64,
    pub last: f64,
}

impl Link {
    // What links are ordered by.
    pub fn ends(&self) -> (MicroId, MicroId)
        ensures { result ≡ (self.now.lo, self.now.hi) }
    {
        (self.lo, self.hi)
    }
}
