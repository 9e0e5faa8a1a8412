// DenStream as a stream of its kind: its own calls under the names of the trait. dbstream has the same lines, on fields of its own,
// which the trait could not name without a method for each.
ghost use Rattle.model.specs.DenState.{Params, Holdings};
ghost use Rattle.model.specs.Denstream.{denstream};
ghost use Rattle.denstream.specs.View as own;

use crate::stream::DenStream;
use drift::DriftReport;
use model::{Clustered, DenSettings, Inserted, MICROS, Opened, Stream};

impl Stream for DenStream {
    type Settings = DenSettings;

    ghost Params = { Params };

    ghost Holdings = { Holdings };

    ghost kind = { denstream };

    ghost view = { own.view };

    fn open(settings: DenSettings) -> Opened<DenStream> {
        DenStream::new(settings)
    }

    fn try_insert(self, x: &[f64]) -> Inserted<DenStream> {
        DenStream::try_insert(self, x)
    }

    fn cluster(self) -> Clustered<DenStream> {
        DenStream::cluster(self)
    }

    fn micros_held(&self) -> usize {
        self.potential_count()
    }

    fn labels_told(&self) -> &[i64] {
        &self.labels[..self.label_count.min(MICROS)]
    }

    fn drift_report(&self) -> DriftReport {
        self.drift.report()
    }
}
