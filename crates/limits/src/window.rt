// A window near the end of the values that it takes.
use crate::taker::{Taker, taken};
use adwin::{Adwin, Bucket, Full, PLACES, Verdict};
use std::num::saturating_f64_to_u64;
use std::{fmt, io};

// The buckets of the fullest window: 6 of each class up to 36 and 2 of class 37.
const MOST: usize = 224;

// An update's answer, as it is printed. In `replay` too: the crate of the window, on which both stand, has no texts.
#[derive(Clone, Copy)]
struct Answer(Result<Verdict, Full>);

impl fmt::Display for Answer {
    fn fmt<W: fmt::Write>(&self, f: &mut fmt::Formatter<W>) -> fmt::Result {
        match self.0 {
            Ok(Verdict::Quiet) => write!(f, "quiet"),
            Ok(Verdict::Alarm) => write!(f, "alarm"),
            Err(error) => write!(f, "refused {}", u64::from(error)),
        }
    }
}

impl Taker for Adwin {
    // The answer, the values taken, the width and the buckets.
    fn take(&mut self, rt: &impl Print, x: f64) -> io::Result<()> {
        let updated = (*self).update(x);
        *self = updated.window;
        let answer = Answer(updated.answer);
        let width = saturating_f64_to_u64(self.width);
        println!(rt; "{answer} {} {width} {}", self.taken, self.count)
    }
}

// The fullest window, a value short of a cut search, with so many values taken: buckets of class 37 have the mean `old`, the others 1.
// The next class starts behind the second bucket, and then behind each sixth.
fn fullest(old: f64, taken: u64) -> Adwin {
    let mut window = Adwin::new(0.002);
    let mut size = 137438953472.0;
    let mut class: u8 = 37;
    let mut mean = old;
    let places = window.buckets.iter_mut().zip(&mut window.classes);
    for (i, (bucket, bucket_class)) in places.take(MOST).enumerate() {
        let total = size * mean;
        *bucket = Bucket {
            size,
            total,
            variance: 0.0,
        };
        *bucket_class = class;
        window.width += size;
        window.total += total;
        if i % 6 == 1 {
            size /= 2.0;
            mean = 1.0;
            class = class.saturating_sub(1);
        }
    }
    Adwin {
        count: MOST,
        since_check: Adwin::INTERVAL - 1,
        taken,
        ..window
    }
}

// One value more merges in every class; with another mean in the oldest buckets the cut search drops them.
// With 2^40 - 2 values taken one more is, and then no other; what is not finite is still ignored.
pub fn last_values(rt: &impl Print) -> io::Result<()> {
    taken(rt, fullest(1.0, 1099511627770), &[1.0, 1.0])?;
    taken(rt, fullest(0.0, 1099511627770), &[1.0, 1.0])?;
    taken(rt, fullest(1.0, 1099511627774), &[1.0, 1.0, f64::NAN])?;
    Ok(())
}
