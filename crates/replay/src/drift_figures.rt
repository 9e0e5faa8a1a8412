// The part of operation 13's line that the drift monitor has.
use crate::figures::{OrDash, whole};
use adwin::{Adwin, PLACES};
use drift::DriftMonitor;
use std::fmt;
use words::Bits;

// How many buckets, then each with its class, oldest first.
#[derive(Clone, Copy)]
struct Buckets<'a>(&'a Adwin);

impl fmt::Display for Buckets<'_> {
    fn fmt<W: fmt::Write>(&self, f: &mut fmt::Formatter<W>) -> fmt::Result {
        let window = self.0;
        let n = window.count.min(PLACES);
        write!(f, "{n}")?;
        for (class, bucket) in window.classes[..n].iter().zip(&window.buckets[..n]) {
            let size = whole(bucket.size);
            let total = Bits(bucket.total);
            let variance = Bits(bucket.variance);
            write!(f, " {class} {size} {total} {variance}")?;
        }
        Ok(())
    }
}

// All that the monitor keeps.
#[derive(Clone, Copy)]
pub struct Drift<'a>(pub &'a DriftMonitor);

impl fmt::Display for Drift<'_> {
    fn fmt<W: fmt::Write>(&self, f: &mut fmt::Formatter<W>) -> fmt::Result {
        let window = &self.0.adwin;
        let last = OrDash(self.0.last_alarm.map(whole));
        write!(f, "{} {last} {}", self.0.alarms, whole(window.width))?;
        write!(f, " {} {}", Bits(window.total), Bits(window.variance))?;
        write!(
            f,
            " {} {} {}",
            window.since_check,
            window.taken,
            Buckets(window)
        )
    }
}
