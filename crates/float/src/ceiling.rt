// The least whole number that is not below a double.
ghost use Rattle.std.specs.Prelude.{◌≡◌};
ghost use Rattle.float.specs.Ceil.{ceil_of};

// A double that is whole stays, so each one from 2^52 on, to either side.
#[tactic(auto, using(crate::proofs::StdFloats::ceil_same))]
pub fn ceil(x: f64) -> f64
    ensures { result ≡ ceil_of x }
{
    x.ceil()
}
