// The labels of the potential micro-clusters.
ghost use Rattle.std.specs.Prelude.{◌≡◌};
ghost use Rattle.model.specs.Denstream.{cluster_of, finds_of, steps_of};
ghost use Rattle.denstream.specs.View.{view};

use crate::stream::DenStream;
use labels::Labelled;
use model::Clustered;
use union_find::Work;

impl DenStream {
    // Groups whose faded weights reach mu are labelled from 0 by first member; the others get -1. The finds that this took.
    fn relabel(&mut self) -> Work
        ensures stream_after { view self.new ≡ cluster_of (view self.old) }
        ensures work { result ≡ record { finds = finds_of (view self.old); steps = steps_of (view self.old) } }
    {
        let potential = self.potential();
        let n = potential.len();
        let Labelled { labels, work } = den_grouping::group_labels(potential, &self.params, self.t);
        self.labels = labels;
        self.label_count = n;
        work
    }

    // The labels of the potential micro-clusters, the finds that they took and the halving steps of all these. dbstream has one like
    // it, over a `relabel` of its own; the definition of both is one, the model's `Kind`.
    pub fn cluster(mut self) -> Clustered<DenStream>
        ensures stream_value { view result.stream ≡ cluster_of (view self) }
        ensures finds { result.finds ≡ finds_of (view self) }
        ensures steps { result.steps ≡ steps_of (view self) }
    {
        let work = self.relabel();
        Clustered {
            finds: work.finds,
            steps: work.steps,
            stream: self,
        }
    }
}
