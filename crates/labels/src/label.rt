// Labels of places by the root of each.
ghost use Rattle.std.specs.Prelude.{◌≡◌, ◌==◌, position};
ghost use Rattle.labels.specs.Label.{labels_in};

use arrayvec::ArrayVec;
use union_find::{PLACES, Work};

// Labels of places, and the finds that were made for them.
#[derive(Clone, Copy)]
pub struct Labelled {
    pub labels: [i64; PLACES],
    pub work: Work,
}

// The place of v among those met.
fn place_in(met: &[usize], v: usize) -> Option<usize>
    ensures { result ≡ position (λ u. u == v) met.now }
{
    met.iter().position(|u| *u == v)
}

// The labels of the places that the mask covers: from 0 by first member where it is true, −1 elsewhere and at all other places.
pub fn labels(roots: &[usize; PLACES], mask: &[bool]) -> [i64; PLACES]
    ensures { result ≡ labels_in roots.now mask.now }
{
    let mask = &mask[..mask.len().min(PLACES)];
    let mut labels = [-1i64; PLACES];
    let mut met: ArrayVec<usize, PLACES> = ArrayVec::new();
    for (i, &inside) in mask.iter().enumerate() {
        if inside {
            let root = roots[i];
            let k = match place_in(met.as_slice(), root) {
                Some(k) => k,
                None => {
                    met.push(root);
                    met.len() - 1
                }
            };
            labels[i] = k as i64;
        }
    }
    labels
}
