// A DenStream near the end of its clock, and its pruning with the slowest fading.
use crate::taker::{Taker, insert, taken};
use denstream::DenStream;
use model::{DenMicro, DenSettings};
use std::num::saturating_f64_to_u64;
use std::{fmt, io};
use words::Bits;

// How many of a pool, then each: its birth, its latest tick and its weight.
#[derive(Clone, Copy)]
struct Pool<'a>(&'a [DenMicro]);

impl fmt::Display for Pool<'_> {
    fn fmt<W: fmt::Write>(&self, f: &mut fmt::Formatter<W>) -> fmt::Result {
        write!(f, "{}", self.0.len())?;
        for m in self.0 {
            let t0 = saturating_f64_to_u64(m.t0);
            let last = saturating_f64_to_u64(m.body.last);
            write!(f, " {t0} {last} {}", Bits(m.body.cf.w))?;
        }
        Ok(())
    }
}

impl Taker for DenStream {
    // The answer's number, the clock and both pools.
    fn take(&mut self, rt: &impl Print, x: f64) -> io::Result<()> {
        let number = insert(self, x);
        let t = saturating_f64_to_u64(self.t);
        let potential = Pool(self.potential());
        let outliers = Pool(self.outliers());
        println!(rt; "den {number} {t} {potential} {outliers}")
    }
}

// A stream of dim 1, radius 1 and beta x mu 2 takes the points `early`; then its clock is t, and it takes `late`. DBSTREAM's stands
// beside it, since settings and fields are each stream's own.
fn tried(rt: &impl Print, lambda: f64, early: &[f64], t: f64, late: &[f64]) -> io::Result<()> {
    let opened = DenStream::new(DenSettings {
        dim: 1,
        eps: 1.0,
        lambda,
        beta: 0.5,
        mu: 4.0,
    });
    let s = taken(rt, opened.stream, early)?;
    taken(rt, DenStream { t, ..s }, late)?;
    Ok(())
}

// From the clock 2^40 - 4 on three inserts are taken, and no fourth.
pub fn last_inserts(rt: &impl Print) -> io::Result<()> {
    tried(rt, 0.25, &[], 1099511627772.0, &[0.0, 0.0, 0.0, 0.0])
}

// lambda 2^-32: the first pruning is due at 2^32. Four points just keep beta x mu till then, three do not.
pub fn slowest_pruning(rt: &impl Print) -> io::Result<()> {
    let lambda = 2.3283064365386963e-10;
    let early = [0.0, 0.0, 0.0, 0.0, 10.0, 10.0, 10.0, 30.0];
    tried(rt, lambda, &early, 4294967294.0, &[20.0, 20.0])
}
