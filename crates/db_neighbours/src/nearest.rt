// The nearest of the micro-clusters, for the drift monitor.
ghost use Rattle.std.specs.Prelude.{◌≡◌, fold};
ghost use Rattle.float.specs.Order.{smaller};
ghost use Rattle.model.specs.DbInsert.{least_of};

// The smaller of best and the least of the rest; a NaN loses to a number.
fn least_with(best: f64, rest: &[f64]) -> f64
    ensures { result ≡ fold smaller best rest.now }
{
    rest.iter().fold(best, |best, d| float::min(best, *d))
}

// The smallest of the distances, where there is one.
pub(crate) fn least(distances: &[f64]) -> Option<f64>
    ensures { result ≡ least_of distances.now }
{
    let (first, rest) = distances.split_first()?;
    Some(least_with(*first, rest))
}
