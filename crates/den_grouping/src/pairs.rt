// The pairs of micro-clusters whose centres are close.
ghost use Rattle.std.specs.Prelude.{◌≡◌, ◌≤◌, ◌+◌, ◌++◌, length, map, take};
ghost use Rattle.arrayvec.specs.ArrayVec.{array_vec_len};
ghost use Rattle.feature.specs.Feature.{max_dim};
ghost use Rattle.model.specs.Limits.{micros_most};
ghost use Rattle.model.specs.DenCluster.{row_from, pairs_from};
ghost use Rattle.den_pool.specs.Held.{micro_in};

use arrayvec::ArrayVec;
use model::{DenMicro, LINKS};

// As many as there can be links.
pub(crate) type Pairs = ArrayVec<(usize, usize), LINKS>;

// Those of m, whose place is i, with the rest, which stand after it.
fn pair_row(m: &DenMicro, rest: &[DenMicro], i: usize, dim: usize, eps2: f64, pairs: &mut Pairs)
    requires few { (i + length rest.now ≤ micros_most) × (dim ≤ max_dim) }
    requires room { array_vec_len pairs.old + length (row_from eps2 i (take dim m.now.body.cf.mean) (i + 1) (map (micro_in dim) rest.now)) ≤ LINKS }
    ensures { pairs.new.items ≡ pairs.old.items ++ row_from eps2 i (take dim m.now.body.cf.mean) (i + 1) (map (micro_in dim) rest.now) }
{
    let centre = &m.body.cf.mean[..dim];
    for (j, other) in rest.iter().enumerate() {
        let other = &other.body.cf.mean[..dim];
        if feature::sq_euclidean(centre, other) <= 4.0 * eps2 {
            pairs.push((i, i + 1 + j));
        }
    }
}

// All of them, by the lower place, then by the higher.
pub(crate) fn close_pairs(pool: &[DenMicro], dim: usize, eps2: f64) -> Pairs
    requires few { (length pool.now ≤ micros_most) × (dim ≤ max_dim) }
    ensures { result.items ≡ pairs_from eps2 0 (map (micro_in dim) pool.now) }
{
    let mut pairs = Pairs::new();
    for (i, m) in pool.iter().enumerate() {
        pair_row(m, &pool[i + 1..], i, dim, eps2, &mut pairs);
    }
    pairs
}
