// The nearest of a list, by a distance that the caller measures, or by distances that it measured before.
ghost use Rattle.std.specs.Prelude.{◌≡◌, Float};
ghost use Rattle.lists.specs.Retain.{AnswersBy};
ghost use Rattle.model.specs.Nearest.{nearest_of};
ghost use Rattle.readout.specs.Found.{found_of, nearest_among};

// Where the nearest stands, and how far it is.
#[derive(Clone, Copy)]
pub struct Found {
    pub place: usize,
    pub dist: f64,
}

// Takes a smaller distance only: ties keep the lower place and a NaN met first stays.
pub fn nearest_by<M, F: Fn(&M) -> f64>(items: &[M], distance: F) -> Option<Found>
    requires { F.IsAlwaysCallable distance }
    ensures { (d : M → Float) → AnswersBy F.Fn distance d → result ≡ found_of (nearest_of d items.now) }
{
    let (first, rest) = items.split_first()?;
    let mut found = Found {
        place: 0,
        dist: distance(first),
    };
    for (i, item) in rest.iter().enumerate() {
        let dist = distance(item);
        if dist < found.dist {
            found = Found { place: i + 1, dist };
        }
    }
    Some(found)
}

// Of the distances themselves, whatever they were measured of.
pub fn nearest(distances: &[f64]) -> Option<Found>
    ensures { result ≡ nearest_among distances.now }
{
    nearest_by(distances, |d| *d)
}
