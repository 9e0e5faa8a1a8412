// DBSTREAM as a stream of its kind: its own calls under the names of the trait. denstream has the same lines over its own calls and
// fields: they are what makes one trait of two streams.
ghost use Rattle.model.specs.DbState.{Params, Holdings};
ghost use Rattle.model.specs.Dbstream.{dbstream};
ghost use Rattle.dbstream.specs.View as own;

use crate::stream::DbStream;
use drift::DriftReport;
use model::{Clustered, DbSettings, Inserted, MICROS, Opened, Stream};

impl Stream for DbStream {
    type Settings = DbSettings;

    ghost Params = { Params };

    ghost Holdings = { Holdings };

    ghost kind = { dbstream };

    ghost view = { own.view };

    fn open(settings: DbSettings) -> Opened<DbStream> {
        DbStream::new(settings)
    }

    fn try_insert(self, x: &[f64]) -> Inserted<DbStream> {
        DbStream::try_insert(self, x)
    }

    fn cluster(self) -> Clustered<DbStream> {
        DbStream::cluster(self)
    }

    fn micros_held(&self) -> usize {
        self.micro_count()
    }

    fn labels_told(&self) -> &[i64] {
        &self.labels[..self.label_count.min(MICROS)]
    }

    fn drift_report(&self) -> DriftReport {
        self.drift.report()
    }
}
