// A whole run of a window.
ghost use Rattle.std.specs.Prelude.{◌≡◌};
ghost use Rattle.whole_runs.specs.Window.{window_run};

use adwin::{Adwin, Updated};

// The updates that rang, and the window after all of them: the values it took, its width, mean and variance.
#[repr(C)]
#[derive(Clone, Copy)]
pub struct WindowFigures {
    pub alarms: u64,
    pub taken: u64,
    pub width: usize,
    pub mean: f64,
    pub variance: f64,
}

// A fresh window, and an update by each value in order.
pub fn window_run(delta: f64, values: &[f64]) -> WindowFigures
    ensures { result ≡ window_run delta values.now }
{
    let mut window = Adwin::new(delta);
    let mut alarms = 0;
    for value in values {
        let Updated {
            answer,
            window: after,
        } = window.update(*value);
        window = after;
        alarms += u64::from(adwin::rings(&answer));
    }
    WindowFigures {
        alarms,
        taken: window.taken,
        width: window.width(),
        mean: window.mean(),
        variance: window.variance(),
    }
}
