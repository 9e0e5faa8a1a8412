// Sums of weights by root.
ghost use Rattle.std.specs.Prelude.{◌≡◌};
ghost use Rattle.labels.specs.Group.{sums_of};

use union_find::PLACES;

// For each place, the weights of those whose root it is, summed by index from 0.
pub fn sums(roots: &[usize], weights: &[f64]) -> [f64; PLACES]
    ensures { result ≡ sums_of roots.now weights.now }
{
    let mut sums = [0.0f64; PLACES];
    for (&root, &weight) in roots.iter().zip(weights) {
        if root < PLACES {
            sums[root] += weight;
        }
    }
    sums
}
