// The square root of an `f64` as IEEE 754 has it.
#![tactic(auto)]

ghost use Rattle.std.specs.Prelude.{◌≡◌};
ghost use Rattle.sqrt.specs.Root.{sqrt_of};

// The square root of x, rounded to the nearest, a tie to the even one. Zeros, the infinity and NaN
// are their own roots.
#[tactic(auto, using(crate::proofs::StdRoot::sqrt_same))]
pub fn sqrt(x: f64) -> f64
    ensures { result ≡ sqrt_of x }
{
    x.sqrt()
}
