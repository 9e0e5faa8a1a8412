// The limits of a stream; `feature::MAX_DIM` has that of a point.

// The most micro-clusters that a stream holds, both pools of a DenStream together.
pub const MICROS: usize = 64;

// The most links: the pairs of 64 micro-clusters.
pub const LINKS: usize = 2016;

// The clock at which no further point is taken: 2 to the power 40, less 1.
pub(crate) const CLOCK: f64 = 1099511627775.0;
