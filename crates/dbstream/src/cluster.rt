// Families: strong micro-clusters, joined by dense links.
ghost use Rattle.std.specs.Prelude.{◌≡◌};
ghost use Rattle.model.specs.Dbstream.{cluster_of, finds_of, steps_of};
ghost use Rattle.dbstream.specs.View.{view};

use crate::stream::DbStream;
use labels::Labelled;
use model::Clustered;
use union_find::Work;

impl DbStream {
    // Labels by first member; weights and links are taken as faded to the clock, and stay as stored. The finds that this took.
    fn relabel(&mut self) -> Work
        ensures stream_after { view self.new ≡ cluster_of (view self.old) }
        ensures work { result ≡ record { finds = finds_of (view self.old); steps = steps_of (view self.old) } }
    {
        let settings = self.params.settings;
        let micros = self.held();
        let n = micros.len();
        let strong = db_micro::strong_ones(micros, settings.lambda, self.t, settings.min_weight);
        let Labelled { labels, work } = db_joins::labels_of(
            self.held_links(),
            micros,
            &strong,
            settings.lambda,
            self.t,
            settings.alpha * settings.min_weight,
        );
        self.labels = labels;
        self.label_count = n;
        work
    }

    // The labels of the micro-clusters, -1 for those that are not strong, and the finds that they took. In denstream too, over its own
    // private `relabel`. "Cluster returns the number of finds and the number of halving steps made": each by its name.
    pub fn cluster(mut self) -> Clustered<DbStream>
        ensures stream_value { view result.stream ≡ cluster_of (view self) }
        ensures finds { result.finds ≡ finds_of (view self) }
        ensures steps { result.steps ≡ steps_of (view self) }
    {
        let work = self.relabel();
        Clustered {
            finds: work.finds,
            steps: work.steps,
            stream: self,
        }
    }
}
