// The drift monitor of a stream: a window over the distances from the points to the nearest micro-cluster.
#![tactic(auto)]

ghost use Rattle.std.specs.Prelude.{◌≡◌, None};
ghost use Rattle.drift.specs.Monitor.{new_of, observe_of, report_of, view};

use adwin::Adwin;

// What the monitor reports: the alarms rung, the tick of the last where there is one, and the window's mean and width.
#[derive(Clone, Copy)]
pub struct DriftReport {
    pub alarms: u64,
    pub last_alarm: Option<f64>,
    // The window's mean: distances in radii.
    pub distance: f64,
    pub window: usize,
}

// The window, the radius that distances are counted in, and the alarms rung so far.
#[derive(Clone, Copy)]
pub struct DriftMonitor {
    pub adwin: Adwin,
    pub radius: f64,
    pub alarms: u64,
    pub last_alarm: Option<f64>,
}

impl DriftMonitor {
    // Bifet's delta, for every stream.
    pub const DELTA: f64 = 0.002;

    // An empty window and no alarm; distances are counted in this radius.
    pub fn new(radius: f64) -> Self
        ensures { view result ≡ new_of radius }
    {
        Self {
            adwin: Adwin::new(DriftMonitor::DELTA),
            radius,
            alarms: 0,
            last_alarm: None,
        }
    }

    // The monitor after the point at tick t; without a nearest distance, as it came.
    pub fn observe(self, nearest: Option<f64>, t: f64) -> Self
        ensures result_value { view result ≡ observe_of (view self) nearest t }
        ensures untouched { nearest ≡ None → result ≡ self }
    {
        let Some(d2) = nearest else {
            return self;
        };
        let updated = self.adwin.update(sqrt::sqrt(d2) / self.radius);
        let adwin = updated.window;
        if updated.rings() {
            return DriftMonitor {
                adwin,
                alarms: self.alarms.wrapping_add(1),
                last_alarm: Some(t),
                ..self
            };
        }
        DriftMonitor { adwin, ..self }
    }

    // The alarms so far, the tick of the last, and the mean and width of the window.
    pub fn report(self) -> DriftReport
        ensures { result ≡ report_of (view self) }
    {
        let adwin = self.adwin;
        let last_alarm = self.last_alarm;
        DriftReport {
            alarms: self.alarms,
            last_alarm,
            distance: adwin.mean(),
            window: adwin.width(),
        }
    }
}
