// A DBSTREAM near the end of its clock, and its cleanup with the slowest fading.
use crate::taker::{Taker, insert, taken};
use dbstream::DbStream;
use model::{DbMicro, DbSettings, MicroId};
use std::num::saturating_f64_to_u64;
use std::{fmt, io};
use words::Bits;

// Of each micro-cluster its creation number, latest tick and weight.
#[derive(Clone, Copy)]
struct Micros<'a>(&'a [DbMicro]);

impl fmt::Display for Micros<'_> {
    fn fmt<W: fmt::Write>(&self, f: &mut fmt::Formatter<W>) -> fmt::Result {
        for m in self.0 {
            let id = m.id.0;
            let last = saturating_f64_to_u64(m.body.last);
            write!(f, " {id} {last} {}", Bits(m.body.cf.w))?;
        }
        Ok(())
    }
}

impl Taker for DbStream {
    // The answer's number, the clock and the micro-clusters.
    fn take(&mut self, rt: &impl Print, x: f64) -> io::Result<()> {
        let number = insert(self, x);
        let t = saturating_f64_to_u64(self.t);
        let micros = Micros(self.held());
        println!(rt; "db {number} {t}{micros}")
    }
}

// A stream of dim 1 and radius 1 takes the points `early`; then its clock is t and its next creation number `next`, and it takes `late`.
// DenStream's has settings and fields of its own.
fn tried(
    rt: &impl Print,
    lambda: f64,
    early: &[f64],
    t: f64,
    next: u64,
    late: &[f64],
) -> io::Result<()> {
    let opened = DbStream::new(DbSettings {
        dim: 1,
        r: 1.0,
        lambda,
        alpha: 0.5,
        min_weight: 1.0,
    });
    let s = taken(rt, opened.stream, early)?;
    let next_id = MicroId(next);
    taken(rt, DbStream { t, next_id, ..s }, late)?;
    Ok(())
}

// From the clock 2^40 - 4 on three inserts are taken, and no fourth.
pub fn last_inserts(rt: &impl Print) -> io::Result<()> {
    let t = 1099511627772.0;
    tried(rt, 0.25, &[0.0], t, 1099511627772, &[0.0, 0.0, 10.0, 10.0])
}

// lambda 2^-32: the first cleanup is due at 2^32, where a weight of 1 has faded to just the floor, and the next at 2^33.
pub fn slowest_cleanup(rt: &impl Print) -> io::Result<()> {
    let lambda = 2.3283064365386963e-10;
    let early = [0.0, 10.0, 10.0];
    tried(rt, lambda, &early, 4294967295.0, 2, &[20.0])?;
    tried(rt, lambda, &early, 8589934591.0, 2, &[20.0])
}
