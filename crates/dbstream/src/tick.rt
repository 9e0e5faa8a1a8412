// The clock ticks. The same in denstream, on that stream's fields and with its own cleanup; the tick itself is `Clock`, in model.
ghost use Rattle.std.specs.Prelude.{◌≡◌};
ghost use Rattle.model.specs.Dbstream.{tick_of};
ghost use Rattle.dbstream.specs.View.{view};

use crate::stream::DbStream;
use model::Clock;

impl DbStream {
    // The drift monitor, then t grows by 1, then, where t is a multiple of t_gap, the cleanup.
    pub(crate) fn advance(&mut self, near: Option<f64>)
        ensures { view self.new ≡ tick_of (view self.old) near }
    {
        let ticked = Clock::at(self.t, self.params.t_gap).tick(self.drift, near);
        self.t = ticked.t;
        self.drift = ticked.drift;
        if ticked.due {
            self.clean();
        }
    }

    // The clock ticks without a point.
    pub fn tick(mut self, near: Option<f64>) -> Self
        ensures { view result ≡ tick_of (view self) near }
    {
        self.advance(near);
        self
    }
}
