// How many of each pool are held: both together never more than 64.
ghost use Rattle.std.specs.Prelude.{◌≡◌};
ghost use Rattle.den_placement.specs.Pools.{potential_held, outliers_held};

use model::MICROS;

// A count past the places stands for all of them.
pub fn potential_held(potential_count: usize) -> usize
    ensures { result ≡ potential_held potential_count }
{
    potential_count.min(MICROS)
}

// No more than the places that the potential ones leave.
pub fn outliers_held(potential_count: usize, outlier_count: usize) -> usize
    ensures { result ≡ outliers_held potential_count outlier_count }
{
    outlier_count.min(MICROS - potential_held(potential_count))
}
