// A DenStream as the script calls it.
use crate::figures::{Feature, whole};
use crate::stream::Replayed;
use denstream::DenStream;
use drift::DriftMonitor;
use model::{DenMicro, MicroId, NotLive, ShapeError, TooShort};
use std::fmt;

// How many micro-clusters a pool has, then each, with as many coordinates as the stream has.
#[derive(Clone, Copy)]
struct Pool<'a> {
    held: &'a [DenMicro],
    dim: usize,
}

impl fmt::Display for Pool<'_> {
    fn fmt<W: fmt::Write>(&self, f: &mut fmt::Formatter<W>) -> fmt::Result {
        let dim = self.dim;
        write!(f, " {}", self.held.len())?;
        for m in self.held {
            let last = whole(m.body.last);
            let t0 = whole(m.t0);
            let cf = &m.body.cf;
            write!(f, " {last} {t0}{}", Feature { cf, dim })?;
        }
        Ok(())
    }
}

impl Replayed for DenStream {
    fn labels(&self, out: &mut [i64]) -> Result<(), TooShort> {
        den_readout::labels(self, out)
    }

    fn predict(&self, x: &[f64]) -> Result<i64, ShapeError> {
        den_readout::try_predict(self, x)
    }

    fn statistics(
        &self,
        centres: &mut [f64],
        weights: &mut [f64],
        radii: &mut [f64],
    ) -> Result<(), TooShort> {
        den_readout::potential_stats(self, centres, weights, radii)
    }

    fn connectivity(&self, _a: MicroId, _b: MicroId) -> Option<Result<f64, NotLive>> {
        None
    }

    fn coordinates(&self) -> usize {
        self.dim()
    }

    fn families(&self) -> usize {
        den_readout::n_clusters(self)
    }

    fn monitor(&self) -> &DriftMonitor {
        &self.drift
    }

    fn write_held<W: fmt::Write>(&self, f: &mut fmt::Formatter<W>) -> fmt::Result {
        let dim = self.dim();
        let potential = Pool {
            held: self.potential(),
            dim,
        };
        let outliers = Pool {
            held: self.outliers(),
            dim,
        };
        write!(f, "den {}{potential}{outliers}", whole(self.t))
    }
}
