// Who stays when a pool is pruned: those that did not fade too far.
ghost use Rattle.std.specs.Prelude.{◌≡◌};
ghost use Rattle.model.specs.DenInsert.{outlier_needs};
ghost use Rattle.model.specs.DenInsert as doc;

use model::{DenMicro, DenParams};

// An outlier needs the more weight the older it is. The parameters and the clock come apart, here and in the crates above, as the
// definitions take them: the stream keeps them apart, and a record of both would be made anew for each call.
fn outlier_needs(t0: f64, params: &DenParams, t: f64) -> f64
    ensures { result ≡ outlier_needs params.now t t0 }
{
    let lambda = params.settings.lambda;
    (float::exp2(-lambda * (t - t0 + params.tp)) - 1.0) / (float::exp2(-lambda * params.tp) - 1.0)
}

// Whether a potential one's faded weight is bm or more.
pub fn potential_stays(m: &DenMicro, params: &DenParams, t: f64) -> bool
    ensures { result ≡ doc.potential_stays params.now t m.now }
{
    let w = m.body.faded_weight(params.settings.lambda, t);
    params.bm <= w
}

// Whether an outlier's faded weight is what its age asks for, or more.
pub fn outlier_stays(m: &DenMicro, params: &DenParams, t: f64) -> bool
    ensures { result ≡ doc.outlier_stays params.now t m.now }
{
    let w = m.body.faded_weight(params.settings.lambda, t);
    outlier_needs(m.t0, params, t) <= w
}
