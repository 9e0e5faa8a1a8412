// A point as an array.
ghost use Rattle.std.specs.Prelude.{◌≡◌};
ghost use Rattle.model.specs.Point.{padded_of};

use feature::MAX_DIM;

// The first 15 coordinates, with zeros behind them.
pub fn padded(x: &[f64]) -> [f64; MAX_DIM]
    ensures { result ≡ padded_of x.now }
{
    let mut p = [0.0; MAX_DIM];
    let n = x.len().min(MAX_DIM);
    p[..n].copy_from_slice(&x[..n]);
    p
}
