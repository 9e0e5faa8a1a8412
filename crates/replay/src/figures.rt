// How figures are printed: doubles by their bits, times and counts in decimal, lists with a space before each field.
use feature::{MAX_DIM, Spherical};
use std::fmt;
use std::num::saturating_f64_to_u64;
use words::Bits;

// A double that is a whole number, to print it in decimal.
pub fn whole(x: f64) -> u64 {
    saturating_f64_to_u64(x)
}

// What may be absent: then a dash.
#[derive(Clone, Copy)]
pub struct OrDash<T>(pub Option<T>);

impl<T: fmt::Display> fmt::Display for OrDash<T> {
    fn fmt<W: fmt::Write>(&self, f: &mut fmt::Formatter<W>) -> fmt::Result {
        match &self.0 {
            Some(x) => write!(f, "{x}"),
            None => write!(f, "-"),
        }
    }
}

// Doubles one after another.
#[derive(Clone, Copy)]
pub struct Doubles<'a>(pub &'a [f64]);

impl fmt::Display for Doubles<'_> {
    fn fmt<W: fmt::Write>(&self, f: &mut fmt::Formatter<W>) -> fmt::Result {
        for x in self.0 {
            write!(f, " {}", Bits(*x))?;
        }
        Ok(())
    }
}

// How many labels there are, then each.
#[derive(Clone, Copy)]
pub struct Labels<'a>(pub &'a [i64]);

impl fmt::Display for Labels<'_> {
    fn fmt<W: fmt::Write>(&self, f: &mut fmt::Formatter<W>) -> fmt::Result {
        write!(f, " {}", self.0.len())?;
        for label in self.0 {
            write!(f, " {label}")?;
        }
        Ok(())
    }
}

// Weight, sum of squared deviations, and the mean's coordinates, as many as the stream has.
#[derive(Clone, Copy)]
pub struct Feature<'a> {
    pub cf: &'a Spherical,
    pub dim: usize,
}

impl fmt::Display for Feature<'_> {
    fn fmt<W: fmt::Write>(&self, f: &mut fmt::Formatter<W>) -> fmt::Result {
        let n = self.dim.min(MAX_DIM);
        let mean = Doubles(&self.cf.mean[..n]);
        write!(f, " {} {}{mean}", Bits(self.cf.w), Bits(self.cf.ssd))
    }
}
