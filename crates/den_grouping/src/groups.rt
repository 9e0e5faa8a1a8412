// Which groups count, and the labels of their members.
ghost use Rattle.std.specs.Prelude.{min, ℕ, ◌≡◌, map, take, get_or, length};
ghost use Rattle.std.specs.Float.Ieee.{le};
ghost use Rattle.std.specs.Float.{nan};
ghost use Rattle.union_find.specs.Steps.{work_by};
ghost use Rattle.feature.specs.Feature.{max_dim};
ghost use Rattle.model.specs.Limits.{micros_most};
ghost use Rattle.den_pool.specs.Held.{seen};
ghost use Rattle.den_grouping.specs.Group.{labels_in, find_steps_in};

use crate::pairs::close_pairs;
use feature::MAX_DIM;
use labels::Labelled;
use model::{DenMicro, DenParams, MICROS};

// Which places' groups reach mu, by the sum at each place's root.
fn reaching(roots: &[usize], sums: &[f64; MICROS], mu: f64) -> [bool; MICROS]
    ensures { take (length roots.now) result ≡ map (λ (v : ℕ). le mu (get_or sums.now v nan)) (take micros_most roots.now) }
{
    lists::each(
        roots,
        false,
        |root| sums.get(*root).is_some_and(|sum| mu <= *sum),
    )
}

// The labels of the first 64 at the clock t. Roots are sought for all of them.
pub fn group_labels(pool: &[DenMicro], params: &DenParams, t: f64) -> Labelled
    ensures labels_value { take (length pool.now) result.labels
        ≡ labels_in params.now t (seen (min params.now.settings.dim max_dim) micros_most pool.now) }
    ensures work { result.work ≡ work_by (find_steps_in params.now (seen (min params.now.settings.dim max_dim) micros_most pool.now)) }
{
    let pool = &pool[..pool.len().min(MICROS)];
    let pairs = close_pairs(pool, params.settings.dim.min(MAX_DIM), params.eps2);
    let rooted = union_find::roots(&pairs, &[true; MICROS][..pool.len()]);
    let weights = den_pool::faded_weights(pool, params.settings.lambda, t);
    let sums = labels::sums(&rooted.roots, &weights[..pool.len()]);
    let counts = reaching(&rooted.roots[..pool.len()], &sums, params.settings.mu);
    Labelled {
        labels: labels::labels(&rooted.roots, &counts[..pool.len()]),
        work: rooted.work,
    }
}
