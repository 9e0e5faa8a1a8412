// What a DBSTREAM keeps, and what it says of itself; the crate db_readout has the rest.
ghost use Rattle.std.specs.Prelude.{◌≡◌, ◌≤◌, length, take};
ghost use Rattle.drift.specs.Monitor.{report_of};
ghost use Rattle.dbstream.specs.View.{view};

use drift::{DriftMonitor, DriftReport};
use feature::MAX_DIM;
use model::{DbMicro, DbParams, LINKS, Link, MICROS, MicroId};

// Arrays with counts of what they hold, as document 01 names them: a stream is Copy and is taken and given by value, and an ArrayVec
// is not Copy. Links stand in the order of their ends' creation numbers.
// `dim` and `drift` stand in denstream too, and so do `new`, `tick`, `cluster` and `try_insert`, as their files say: each is on fields
// of its own stream, which a trait cannot name without a method for each. What opening, insert, tick and cluster mean is one
// definition over `Kind`, in model, with its laws.
#[derive(Clone, Copy)]
pub struct DbStream {
    pub params: DbParams,
    pub t: f64,
    pub next_id: MicroId,
    pub micros: [DbMicro; MICROS],
    pub count: usize,
    pub links: [Link; LINKS],
    pub link_count: usize,
    pub labels: [i64; MICROS],
    pub label_count: usize,
    pub drift: DriftMonitor,
}

impl DbStream {
    // The coordinates of a point.
    pub fn dim(&self) -> usize
        ensures { result ≡ (view self.now).params.settings.dim }
    {
        self.params.settings.dim.min(MAX_DIM)
    }

    // How many micro-clusters are held.
    pub fn micro_count(&self) -> usize
        ensures { result ≡ length (view self.now).held.micros }
    {
        self.count.min(MICROS)
    }

    // The micro-clusters held.
    pub fn held(&self) -> &[DbMicro]
        ensures value { result.now ≡ take self.now.count self.now.micros }
        ensures few { length result.now ≤ MICROS }
    {
        &self.micros[..self.count.min(MICROS)]
    }

    // The links held.
    pub fn held_links(&self) -> &[Link]
        ensures { result.now ≡ take self.now.link_count self.now.links }
    {
        &self.links[..self.link_count.min(LINKS)]
    }

    // The drift monitor's report.
    pub fn drift(&self) -> DriftReport
        ensures { result ≡ report_of (view self.now).drift }
    {
        self.drift.report()
    }
}
