// The clock ticks.
ghost use Rattle.std.specs.Prelude.{◌≡◌};
ghost use Rattle.model.specs.Denstream.{tick_of};
ghost use Rattle.denstream.specs.View.{view};

use crate::stream::DenStream;
use model::Clock;

impl DenStream {
    // Both calls stand in dbstream too, since a trait could not name their fields without a method for each; the definition and the
    // laws of both are one, the model's `Kind`.

    // The drift monitor, then t grows by 1, then, where t is a multiple of tp, the pruning.
    pub(crate) fn advance(&mut self, near: Option<f64>)
        ensures { view self.new ≡ tick_of (view self.old) near }
    {
        let clock = Clock::at(self.t, self.params.tp);
        let ticked = clock.tick(self.drift, near);
        self.t = ticked.t;
        self.drift = ticked.drift;
        if ticked.due {
            self.prune();
        }
    }

    // The stream after a tick, with the drift distance of its point.
    pub fn tick(mut self, near: Option<f64>) -> Self
        ensures { view result ≡ tick_of (view self) near }
    {
        self.advance(near);
        self
    }
}
