// How much of a weight is left after a while.
ghost use Rattle.std.specs.Prelude.{◌≡◌};
ghost use Rattle.feature.specs.Fade.{fade_of, Share};

// Two to the power -lambda * (t - last): never above 1 nor below 0. Here and wherever something fades lambda and t stay two numbers,
// as in each definition of the document: one is a setting, the other the clock, and a pair of them would be made for every call.
pub fn fade(lambda: f64, t: f64, last: f64) -> f64
    ensures value { result ≡ fade_of lambda t last }
    ensures share { Share result }
{
    float::exp2(-lambda * (t - last))
}
