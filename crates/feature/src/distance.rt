// The distance between two points, or a point and a centre.
ghost use Rattle.std.specs.Prelude.{◌≡◌};
ghost use Rattle.feature.specs.Distance.{sq_dist};

// The plain sum of (x - y) * (x - y), by index from 0, as far as both go.
pub fn sq_euclidean(a: &[f64], b: &[f64]) -> f64
    ensures { result ≡ sq_dist a.now b.now }
{
    let mut s = 0.0;
    for (x, y) in a.iter().zip(b) {
        let d = x - y;
        s = s + d * d;
    }
    s
}
