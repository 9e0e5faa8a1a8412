// The label that a point is told.
ghost use Rattle.std.specs.Prelude.{◌≡◌, min, negsuc, unwrap_or};
ghost use Rattle.feature.specs.Feature.{max_dim};
ghost use Rattle.model.specs.Answers.{prediction_said};
ghost use Rattle.model.specs.ReadOut.{label_for, predict_of};
ghost use Rattle.readout.specs.Seen.{seen};

use crate::distances::nearest_by;
use feature::MAX_DIM;
use model::{Micro, ShapeError};

// The label of the nearest; none if the counts differ, nothing is there, or the nearest is too far.
fn label_for<M: Micro>(
    micros: &[M],
    labels: &[i64],
    radius2: f64,
    dim: usize,
    x: &[f64],
) -> Option<i64>
    ensures { unwrap_or result (negsuc 0) ≡ label_for radius2 (seen dim M.body_of micros.now) labels.now x.now }
{
    if labels.len() != micros.len() {
        return None;
    }
    let found = nearest_by(micros, |m| m.body().distance(x, dim))?;
    if found.dist <= radius2 {
        labels.get(found.place).copied()
    } else {
        None
    }
}

// By the micro-clusters and their labels; a point of another length than dim, cut to 15, is refused.
pub fn predict<M: Micro>(
    micros: &[M],
    labels: &[i64],
    radius2: f64,
    dim: usize,
    x: &[f64],
) -> Result<i64, ShapeError>
    ensures { prediction_said result ≡ predict_of (min dim max_dim) radius2 (seen dim M.body_of micros.now) labels.now x.now }
{
    let expected = dim.min(MAX_DIM);
    let got = x.len();
    if got != expected {
        return Err(ShapeError { expected, got });
    }
    // In an array, as a mean's coordinates are.
    let point = model::padded(x);
    Ok(label_for(micros, labels, radius2, dim, &point[..expected]).unwrap_or(-1))
}
