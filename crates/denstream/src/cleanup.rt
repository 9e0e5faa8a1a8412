// What a pruning leaves.
ghost use Rattle.std.specs.Prelude.{◌≡◌};
ghost use Rattle.model.specs.Stream.{cleaned_of};
ghost use Rattle.model.specs.Denstream.{denstream};
ghost use Rattle.denstream.specs.View.{view};

use crate::stream::DenStream;
use den_placement::{outliers_held, potential_held};
use den_pool::{outlier_stays, potential_stays};

impl DenStream {
    // Potential micro-clusters that faded below bm go, and outliers that weigh less than their age asks for.
    pub(crate) fn prune(&mut self)
        ensures { view self.new ≡ cleaned_of denstream (view self.old) }
    {
        let t = self.t;
        let params = self.params;
        let np = potential_held(self.potential_count);
        let no = outliers_held(self.potential_count, self.outlier_count);
        self.potential_count = lists::retain(
            &mut self.potential[..np],
            |m| potential_stays(m, &params, t),
        );
        self.outlier_count = lists::retain(
            &mut self.outliers[..no],
            |m| outlier_stays(m, &params, t),
        );
    }
}
