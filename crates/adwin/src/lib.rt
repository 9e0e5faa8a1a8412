// ADWIN: a window over a stream of numbers that tells when they changed (Bifet & Gavaldà, SDM 2007).
#![tactic(auto)]

ghost use Rattle.std.specs.Prelude.{◌≡◌, ◌+◌, ◌<◌, ◌≤◌, Ok, Err, false};
ghost use Rattle.float.specs.Order.{is_finite};
ghost use Rattle.std.specs.List.{remove};
ghost use Rattle.adwin.specs.Settings.{places};
ghost use Rattle.adwin.specs.Buckets.{push_of};
ghost use Rattle.adwin.specs.Cut.{buckets_of, gOf, must_drop, test_of, variance_without};
ghost use Rattle.adwin.specs.Window.{has_room, mean_of, new_of, shrunk, update_of, variance_of, variance_with, width_of};
ghost use Rattle.adwin.specs.View.{held_of, number_of, outcome_with, rings, sums_of, told, view};
ghost use Rattle.adwin.specs.Inside.Lists.{oldest_dropped, pair_merged, with_held};

pub use adwin_buckets::{Bucket, PLACES};
use adwin_buckets::{CutTest, some_fails};

// The window. The buckets are the first `count` of the array, oldest first, each with its class: a bucket of class c has 2^c values.
// The classes have an array of their own, since the cut search is lent the buckets as a slice and has no use of a class.
// Arrays and a count: the window is Copy and passed by value, which an ArrayVec is not. Any count is taken, so each step that needs it
// within the places says so.
#[derive(Clone, Copy)]
pub struct Adwin {
    pub delta: f64,
    pub buckets: [Bucket; PLACES],
    pub classes: [u8; PLACES],
    pub count: usize,
    pub width: f64,
    pub total: f64,
    pub variance: f64,
    // Values taken since the last cut search, and ever.
    pub since_check: u64,
    pub taken: u64,
}

// What an update tells of its value: no change seen, or a change.
#[derive(Clone, Copy, Debug, PartialEq, Eq)]
pub enum Verdict {
    Quiet,
    Alarm,
}

// The refusal of a value: `LIMIT` were taken, or no place is left.
#[derive(Clone, Copy, Debug, PartialEq, Eq)]
pub struct Full;

impl From<Full> for u64 {
    ghost from_gives = { λ e n. n ≡ number_of (Err e) };

    // The refusal's number.
    fn from(_error: Full) -> u64 {
        8
    }
}

// What an update gives back: its answer, and the window after it.
#[derive(Clone, Copy)]
pub struct Updated {
    pub answer: Result<Verdict, Full>,
    pub window: Adwin,
}

// Whether the window shrank because its values changed.
pub fn rings(answer: &Result<Verdict, Full>) -> bool
    ensures { result ≡ rings answer.now }
{
    matches!(answer, Ok(Verdict::Alarm))
}

impl Updated {
    // The same, of its answer.
    pub fn rings(&self) -> bool
        ensures { result ≡ rings self.now.answer }
    {
        rings(&self.answer)
    }
}

impl Adwin {
    // Buckets in a class before its two oldest are merged.
    pub const CAP: usize = 6;
    // The fewest values that a side of a cut has.
    pub const SIDE: f64 = 5.0;
    // Values from one cut search to the next.
    pub const INTERVAL: u64 = 32;
    // The most values that a window takes: 2 to the power 40, less 1.
    pub const LIMIT: u64 = 1099511627775;

    // An empty window; delta is the rate of false alarms, from 2^-1022 to 1 - 2^-52. NaN stays.
    pub fn new(delta: f64) -> Self
        ensures { view result ≡ new_of delta }
    {
        Self {
            delta: delta.clamp(f64::MIN_POSITIVE, 1.0 - f64::EPSILON),
            buckets: [Bucket::default(); PLACES],
            classes: [0; PLACES],
            count: 0,
            width: 0.0,
            total: 0.0,
            variance: 0.0,
            since_check: 0,
            taken: 0,
        }
    }

    // The values in the window.
    pub fn width(&self) -> usize
        ensures { result ≡ width_of (view self.now).sums }
    {
        std::num::saturating_f64_to_usize(self.width)
    }

    // 0 while the window is empty.
    pub fn mean(&self) -> f64
        ensures { result ≡ mean_of (view self.now).sums }
    {
        if self.width > 0.0 {
            self.total / self.width
        } else {
            0.0
        }
    }

    // 0 below two values.
    pub fn variance(&self) -> f64
        ensures { result ≡ variance_of (view self.now).sums }
    {
        if self.width > 1.0 {
            self.variance / self.width
        } else {
            0.0
        }
    }

    // The buckets held, oldest first.
    fn held(&self) -> &[Bucket]
        ensures { result.now ≡ buckets_of (held_of self.now) }
    {
        &self.buckets[..self.count.min(PLACES)]
    }

    // Whether one value more can be taken.
    fn has_room(&self) -> bool
        ensures { result ≡ has_room (view self.now) }
    {
        self.taken < Self::LIMIT && self.count < PLACES
    }

    // The sum of squared deviations with one value more, whose deviation is from the mean before.
    fn variance_with(&self, value: f64) -> f64
        ensures { result ≡ variance_with self.now.width self.now.total self.now.variance value }
    {
        if self.width > 0.0 {
            let dev = value - self.total / self.width;
            self.variance + self.width * dev * dev / (self.width + 1.0)
        } else {
            self.variance
        }
    }

    // The sum of squared deviations without the bucket `gone`: what pooling it had added goes.
    fn variance_without(&self, gone: Bucket) -> f64
        ensures { result ≡ variance_without self.now.width self.now.total self.now.variance gone }
    {
        let rest = self.width - gone.size;
        if rest > 0.0 {
            let gap = gone.total / gone.size - (self.total - gone.total) / rest;
            float::max(
                self.variance - (gone.variance + gone.size * rest / (gone.size + rest) * gap * gap),
                0.0,
            )
        } else {
            0.0
        }
    }

    // The bucket at `at` leaves, and the newer ones move down.
    fn close_gap(&mut self, at: usize)
        requires { (at < self.old.count) × (self.old.count ≤ places) }
        ensures { (self.new.count + 1 ≡ self.old.count) × (view self.new ≡ with_held (view self.old) (remove (held_of self.old) at)) }
    {
        let n = self.count;
        self.buckets.copy_within(at + 1..n, at);
        self.classes.copy_within(at + 1..n, at);
        self.count = n - 1;
    }

    // The bucket at `at` and the next newer one become one of the next class. A byte ends at 255,
    // which no window that started empty comes near.
    fn merge(&mut self, at: usize)
        requires { (at + 1 < self.old.count) × (self.old.count ≤ places) }
        ensures { (self.new.count + 1 ≡ self.old.count) × (view self.new ≡ with_held (view self.old) (pair_merged at (held_of self.old))) }
    {
        self.buckets[at] = self.buckets[at].merged(self.buckets[at + 1]);
        self.classes[at] = self.classes[at + 1].saturating_add(1);
        self.close_gap(at + 1);
    }

    // One bucket more, the newest. Over the cap in a class, its two oldest become the newest of the
    // next: k newer buckets are in the class of the one reached.
    fn push_bucket(&mut self, new: Bucket)
        requires { self.old.count < places }
        ensures { (self.new.count ≤ places) × (view self.new ≡ with_held (view self.old) (push_of (held_of self.old) new)) }
    {
        let n = self.count;
        self.buckets[n] = new;
        self.classes[n] = 0;
        self.count = n + 1;
        let mut k = 0;
        // Over places: each turn looks at two neighbours and may change the array.
        for i in (0..n).rev() {
            if self.classes[i] != self.classes[i + 1] {
                return;
            }
            if k + 2 > Self::CAP {
                self.merge(i);
                k = 0;
            } else {
                k += 1;
            }
        }
    }

    // The oldest bucket leaves the window.
    fn drop_oldest(&mut self)
        requires { (0 < self.old.count) × (self.old.count ≤ places) }
        ensures { (self.new.count + 1 ≡ self.old.count) × (view self.new ≡ oldest_dropped (view self.old)) }
    {
        let gone = self.buckets[0];
        self.variance = self.variance_without(gone);
        self.width -= gone.size;
        self.total -= gone.total;
        self.close_gap(0);
    }

    // What the tests of all cuts of the window share.
    fn cut_test(&self) -> CutTest
        ensures { result ≡ test_of (sums_of self.now) (gOf self.now.delta self.now.width) }
    {
        CutTest {
            side: Self::SIDE,
            width: self.width,
            total: self.total,
            v: self.variance / self.width,
            g: float::ln(2.0 * float::max(float::ln(self.width), 1.0) / self.delta),
        }
    }

    // Whether the window is wide enough for a cut, and one fails.
    fn must_drop(&self) -> bool
        ensures { result ≡ must_drop self.now.delta (sums_of self.now) (buckets_of (held_of self.now)) }
    {
        self.width >= 2.0 * Self::SIDE && some_fails(self.cut_test(), self.held())
    }

    // The cut search: the oldest bucket goes while a cut fails. A while, since each drop decides whether there is another.
    fn shrink(&mut self) -> Verdict
        requires { self.old.count ≤ places }
        ensures { outcome_with (Ok result) self.new ≡ shrunk (view self.old) }
    {
        let mut verdict = Verdict::Quiet;
        while self.must_drop() {
            self.drop_oldest();
            verdict = Verdict::Alarm;
        }
        verdict
    }

    // One value more, and on every 32nd a cut search.
    fn take(&mut self, value: f64) -> Result<Verdict, Full>
        ensures window_after { outcome_with result self.new ≡ update_of (view self.old) value }
        ensures refused { number_of result ≡ 8 → self.new ≡ self.old }
        ensures ignored { is_finite value ≡ false → self.new ≡ self.old }
    {
        if !float::is_finite(value) {
            return Ok(Verdict::Quiet);
        }
        if !self.has_room() {
            return Err(Full);
        }
        self.push_bucket(Bucket::single(value));
        self.variance = self.variance_with(value);
        self.width += 1.0;
        self.total += value;
        self.taken += 1;
        if self.since_check < Self::INTERVAL - 1 {
            self.since_check += 1;
            return Ok(Verdict::Quiet);
        }
        self.since_check = 0;
        Ok(self.shrink())
    }

    // One value more: the answer, and the window after it.
    pub fn update(mut self, value: f64) -> Updated
        ensures result_value { told result ≡ update_of (view self) value }
        ensures refused { number_of result.answer ≡ 8 → result.window ≡ self }
        ensures ignored { is_finite value ≡ false → result.window ≡ self }
    {
        let answer = self.take(value);
        Updated {
            answer,
            window: self,
        }
    }
}
