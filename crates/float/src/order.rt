// Which doubles are finite, and the larger and the smaller of two: a NaN loses to a number.
ghost use Rattle.std.specs.Prelude.{◌≡◌};
ghost use Rattle.float.specs.Order.{is_finite, larger, smaller};

// Whether x is neither a NaN nor an infinity.
#[tactic(auto, using(crate::proofs::StdFloats::finite_same))]
pub fn is_finite(x: f64) -> bool
    ensures { result ≡ is_finite x }
{
    x.is_finite()
}

// The larger; of a NaN and a number, the number. Of 0 and -0 the first, which f64::max leaves open.
pub fn max(a: f64, b: f64) -> f64
    ensures { result ≡ larger a b }
{
    if a.is_nan() || a < b { b } else { a }
}

// The smaller; of a NaN and a number, the number. Of 0 and -0 the first, which f64::min leaves open. Beside max, since a comparison
// handed over is no shorter.
pub fn min(a: f64, b: f64) -> f64
    ensures { result ≡ smaller a b }
{
    if a.is_nan() || b < a { b } else { a }
}
