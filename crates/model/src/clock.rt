// The clock of both streams, which tells the drift monitor the time.
ghost use Rattle.std.specs.Prelude.{◌≡◌};
ghost use Rattle.drift.specs.Monitor.{view};
ghost use Rattle.model.specs.Fading.{is_multiple, ticks_of};
ghost use Rattle.model.specs.Ticking.{tick_told, ticked_of};

use drift::DriftMonitor;

// The whole ticks of a time; 0 where it is not above 0 or not below 2 to the power 63.
fn ticks(x: f64) -> u64
    ensures { result ≡ ticks_of x }
{
    if x > 0.0 && x < 9223372036854775808.0 {
        std::num::truncating_f64_to_u64(x)
    } else {
        0
    }
}

// Whether the clock is a multiple of a period.
fn is_multiple(t: f64, period: f64) -> bool
    ensures { result ≡ is_multiple t period }
{
    let p = ticks(period);
    p != 0 && ticks(t) % p == 0
}

// The tick, and the ticks between two prunings. The monitor is no part of it: it is the stream's own, and a clock is made for one tick.
#[derive(Clone, Copy)]
pub struct Clock {
    pub t: f64,
    pub period: f64,
}

// The time and the monitor after a tick, and whether a pruning is due. The flag is no Option: the others are there either way.
#[derive(Clone, Copy)]
pub struct Ticked {
    pub t: f64,
    pub drift: DriftMonitor,
    pub due: bool,
}

impl Clock {
    // A stream's clock: its tick and its period.
    pub fn at(t: f64, period: f64) -> Clock
        ensures { result ≡ record { t = t; period = period } }
    {
        Clock { t, period }
    }

    // The drift monitor, then t grows by 1; pruning is due where t is a multiple of the period.
    pub fn tick(self, monitor: DriftMonitor, near: Option<f64>) -> Ticked
        ensures { tick_told result ≡ ticked_of self (view monitor) near }
    {
        let drift = monitor.observe(near, self.t);
        let t = self.t + 1.0;
        let due = is_multiple(t, self.period);
        Ticked { t, drift, due }
    }
}
