// What a DBSTREAM reads out: the calls of readout under each stream's own name, since a promise names its view. Apart from the stream,
// since a check grows with the functions over so large a struct.
#![tactic(auto)]

mod connected;

ghost use Rattle.std.specs.Prelude.{◌≡◌};
ghost use Rattle.model.specs.Answers.{prediction_said};
ghost use Rattle.model.specs.ReadOut.{clusters_in};
ghost use Rattle.model.specs.Dbstream.{predict_of, labels_read_of, statistics_of};
ghost use Rattle.readout.specs.Told.{labels_told, statistics_told};
ghost use Rattle.dbstream.specs.View.{view};

pub use connected::connectivity;
use dbstream::DbStream;
use model::{ShapeError, Stream, TooShort};

// The labels of the last cluster, into a lent slice; none after an insert.
pub fn labels(stream: &DbStream, out: &mut [i64]) -> Result<(), TooShort>
    ensures { labels_told result out.new ≡ labels_read_of (view stream.now) out.old }
{
    readout::read_labels(stream.labels_told(), out)
}

// How many families these labels name.
pub fn n_clusters(stream: &DbStream) -> usize
    ensures { result ≡ clusters_in (view stream.now).labels }
{
    readout::n_clusters(stream.labels_told())
}

// The label of the nearest micro-cluster, if it is no farther than r.
pub fn try_predict(stream: &DbStream, x: &[f64]) -> Result<i64, ShapeError>
    ensures { prediction_said result ≡ predict_of (view stream.now) x.now }
{
    let settings = &stream.params.settings;
    readout::predict(
        stream.held(),
        stream.labels_told(),
        settings.r * settings.r,
        settings.dim,
        x,
    )
}

// The means one after another, the faded weights and the radii, into lent slices: three, for the reason beside `readout::statistics`.
pub fn micro_stats(
    stream: &DbStream,
    centres: &mut [f64],
    weights: &mut [f64],
    radii: &mut [f64],
) -> Result<(), TooShort>
    ensures { statistics_told result centres.new weights.new radii.new
        ≡ statistics_of (view stream.now) centres.old weights.old radii.old }
{
    let settings = &stream.params.settings;
    readout::statistics(
        stream.held(),
        settings.lambda,
        stream.t,
        settings.dim,
        centres,
        weights,
        radii,
    )
}
