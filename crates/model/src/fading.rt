// How a weight or a link's value fades.
ghost use Rattle.std.specs.Prelude.{◌≡◌};
ghost use Rattle.model.specs.Fading.{faded_to};

// A weight or a link's value, faded from last to t.
pub fn faded(value: f64, lambda: f64, t: f64, last: f64) -> f64
    ensures { result ≡ faded_to lambda t value last }
{
    value * feature::fade(lambda, t, last)
}
