// A DBSTREAM as the script calls it.
use crate::figures::{Feature, whole};
use crate::stream::Replayed;
use dbstream::DbStream;
use drift::DriftMonitor;
use model::{DbMicro, Link, MicroId, NotLive, ShapeError, TooShort};
use std::fmt;
use words::Bits;

// How many micro-clusters there are, then each, with as many coordinates as the stream has.
#[derive(Clone, Copy)]
struct Micros<'a> {
    held: &'a [DbMicro],
    dim: usize,
}

impl fmt::Display for Micros<'_> {
    fn fmt<W: fmt::Write>(&self, f: &mut fmt::Formatter<W>) -> fmt::Result {
        let dim = self.dim;
        write!(f, " {}", self.held.len())?;
        for m in self.held {
            let id = m.id.0;
            let last = whole(m.body.last);
            let cf = &m.body.cf;
            write!(f, " {id} {last}{}", Feature { cf, dim })?;
        }
        Ok(())
    }
}

// How many links there are, then each.
#[derive(Clone, Copy)]
struct Links<'a>(&'a [Link]);

impl fmt::Display for Links<'_> {
    fn fmt<W: fmt::Write>(&self, f: &mut fmt::Formatter<W>) -> fmt::Result {
        write!(f, " {}", self.0.len())?;
        for link in self.0 {
            let lo = link.lo.0;
            let hi = link.hi.0;
            let value = Bits(link.value);
            write!(f, " {lo} {hi} {value} {}", whole(link.last))?;
        }
        Ok(())
    }
}

impl Replayed for DbStream {
    fn labels(&self, out: &mut [i64]) -> Result<(), TooShort> {
        db_readout::labels(self, out)
    }

    fn predict(&self, x: &[f64]) -> Result<i64, ShapeError> {
        db_readout::try_predict(self, x)
    }

    fn statistics(
        &self,
        centres: &mut [f64],
        weights: &mut [f64],
        radii: &mut [f64],
    ) -> Result<(), TooShort> {
        db_readout::micro_stats(self, centres, weights, radii)
    }

    fn connectivity(&self, a: MicroId, b: MicroId) -> Option<Result<f64, NotLive>> {
        Some(db_readout::connectivity(self, a, b))
    }

    fn coordinates(&self) -> usize {
        self.dim()
    }

    fn families(&self) -> usize {
        db_readout::n_clusters(self)
    }

    fn monitor(&self) -> &DriftMonitor {
        &self.drift
    }

    fn write_held<W: fmt::Write>(&self, f: &mut fmt::Formatter<W>) -> fmt::Result {
        let micros = Micros {
            held: self.held(),
            dim: self.dim(),
        };
        let links = Links(self.held_links());
        write!(f, "db {} {}{micros}{links}", whole(self.t), self.next_id.0)
    }
}
