// The micro-clusters' centres, faded weights and radii.
ghost use Rattle.std.specs.Prelude.{◌≡◌, map, ◌≤◌, ◌*◌, take, length};
ghost use Rattle.std.specs.List.{All};
ghost use Rattle.feature.specs.Feature.{max_dim};
ghost use Rattle.model.specs.Body.{faded_weight, radius_of, body_in};
ghost use Rattle.model.specs.Limits.{micros_most};
ghost use Rattle.model.specs.ReadOut.{written, centres_of, statistics_read};
ghost use Rattle.readout.specs.Seen.{seen};
ghost use Rattle.readout.specs.Told.{statistics_told};

use feature::MAX_DIM;
use model::{Body, MICROS, Micro, TooShort};

// The means' first coordinates, one mean after another. That each mean has its 15 places is known of an array's elements, and asked of a
// slice's. The room is asked here alone, of a private function: `statistics` has asked the slices before anything is written.
fn write_centres(bodies: &[Body], width: usize, out: &mut [f64])
    requires wide { All (λ b. length b.cf.mean ≡ max_dim) bodies.now }
    requires room { (width ≤ max_dim) × (length bodies.now * width ≤ length out.old) }
    ensures { out.new ≡ written (centres_of (map (body_in width) bodies.now)) out.old }
{
    for (i, body) in bodies.iter().enumerate() {
        let at = i * width;
        out[at..at + width].copy_from_slice(&body.cf.mean[..width]);
    }
}

// Each one's weight, faded to t, and radius.
fn write_figures(bodies: &[Body], lambda: f64, t: f64, weights: &mut [f64], radii: &mut [f64])
    requires { (length bodies.now ≤ length weights.old) × (length bodies.now ≤ length radii.old) }
    ensures weights_after { weights.new ≡ written (map (faded_weight lambda t) bodies.now) weights.old }
    ensures radii { radii.new ≡ written (map radius_of bodies.now) radii.old }
{
    for (i, body) in bodies.iter().enumerate() {
        weights[i] = body.faded_weight(lambda, t);
        radii[i] = body.radius();
    }
}

// Of the first 64 micro-clusters, of dim coordinates, at the clock t. Every slice is asked before one is written.
// Three slices and no struct of them: the caller lends three of its own, as document 01's read-out names them, and a struct of three
// `&mut` slices would be made for one call and taken apart in it.
pub fn statistics<M: Micro>(
    micros: &[M],
    lambda: f64,
    t: f64,
    dim: usize,
    centres: &mut [f64],
    weights: &mut [f64],
    radii: &mut [f64],
) -> Result<(), TooShort>
    ensures { statistics_told result centres.new weights.new radii.new
        ≡ statistics_read lambda t (seen dim M.body_of (take micros_most micros.now)) centres.old weights.old radii.old }
{
    // In an array, since `write_centres` asks what is known of its elements.
    let all: [Body; MICROS] = lists::each(micros, Body::new(), |m| *m.body());
    let bodies = &all[..micros.len().min(MICROS)];
    let width = dim.min(MAX_DIM);
    let n = bodies.len();
    let centres_short = centres.len() < n * width;
    let weights_short = weights.len() < n;
    let radii_short = radii.len() < n;
    if centres_short || weights_short || radii_short {
        return Err(TooShort);
    }
    write_centres(bodies, width, centres);
    write_figures(bodies, lambda, t, weights, radii);
    Ok(())
}
