// What a DenStream reads out of its potential micro-clusters: the calls of readout, promised of this stream's view. Apart from the stream,
// since a check grows with the functions over so large a struct.
#![tactic(auto)]

ghost use Rattle.std.specs.Prelude.{◌≡◌};
ghost use Rattle.model.specs.Answers.{prediction_said};
ghost use Rattle.model.specs.ReadOut.{clusters_in};
ghost use Rattle.model.specs.Denstream.{predict_of, labels_read_of, statistics_of};
ghost use Rattle.readout.specs.Told.{labels_told, statistics_told};
ghost use Rattle.denstream.specs.View.{view};

use denstream::DenStream;
use model::{ShapeError, Stream, TooShort};

// The label of each; what lies beyond in the slice stays.
pub fn labels(stream: &DenStream, out: &mut [i64]) -> Result<(), TooShort>
    ensures { labels_told result out.new ≡ labels_read_of (view stream.now) out.old }
{
    readout::read_labels(stream.labels_told(), out)
}

// How many families these labels name.
pub fn n_clusters(stream: &DenStream) -> usize
    ensures { result ≡ clusters_in (view stream.now).labels }
{
    readout::n_clusters(stream.labels_told())
}

// The label of the nearest, if it is no farther than eps.
pub fn try_predict(stream: &DenStream, x: &[f64]) -> Result<i64, ShapeError>
    ensures { prediction_said result ≡ predict_of (view stream.now) x.now }
{
    let params = &stream.params;
    readout::predict(
        stream.potential(),
        stream.labels_told(),
        params.eps2,
        params.settings.dim,
        x,
    )
}

// The centres one after another, the faded weights and the radii, into lent slices: three, for the reason beside `readout::statistics`.
pub fn potential_stats(
    stream: &DenStream,
    centres: &mut [f64],
    weights: &mut [f64],
    radii: &mut [f64],
) -> Result<(), TooShort>
    ensures { statistics_told result centres.new weights.new radii.new
        ≡ statistics_of (view stream.now) centres.old weights.old radii.old }
{
    let params = &stream.params;
    readout::statistics(
        stream.potential(),
        params.settings.lambda,
        stream.t,
        params.settings.dim,
        centres,
        weights,
        radii,
    )
}
