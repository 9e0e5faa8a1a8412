// The two trials of a point, and what follows from them.
ghost use Rattle.std.specs.Prelude.{◌≡◌, take};
ghost use Rattle.model.specs.DenInsert.{smaller_of};
ghost use Rattle.den_pool.specs.Held.{sized, size_of};
ghost use Rattle.den_placement.specs.Pools.{pools_in};
ghost use Rattle.den_placement.specs.Placing.{grown_to, placement_of, placement_told};

use den_pool::Absorbed;
use feature::MAX_DIM;
use model::{DenMicro, DenParams, MICROS};

// What a point does to the pools: the potential one at the place absorbs it; the outlier there does, and moves to the
// potential ones or stays; or a new outlier comes.
#[derive(Clone, Copy, PartialEq, Eq)]
pub enum Target {
    Potential(usize),
    Promotion(usize),
    Outlier(usize),
    Newborn,
}

// The micro-cluster with the point, and where it goes.
#[derive(Clone, Copy)]
pub struct Placed {
    pub target: Target,
    pub micro: DenMicro,
}

#[derive(Clone, Copy)]
pub struct Placement {
    // Where both pools are full and none absorbs the point, it goes nowhere: the point alone, at place 0.
    pub placed: Result<Placed, Absorbed>,
    // The drift distance.
    pub near: Option<f64>,
}

// The drift distance of a point that no potential one took.
fn smaller(potential: Option<f64>, outlier: Option<f64>) -> Option<f64>
    ensures { result ≡ smaller_of potential outlier }
{
    match (potential, outlier) {
        (None, outlier) => outlier,
        (Some(a), None) => Some(a),
        (Some(a), Some(b)) => Some(if a < b { a } else { b }),
    }
}

// Where an outlier that absorbed the point belongs.
fn grown(absorbed: &Absorbed, bm: f64) -> Target
    ensures { result ≡ grown_to bm absorbed.now }
{
    if bm <= absorbed.micro.body.cf.w {
        Target::Promotion(absorbed.place)
    } else {
        Target::Outlier(absorbed.place)
    }
}

// The potential pool is tried first, then the outliers; else the point is a new outlier, where there is a place. Of a point as
// many coordinates are looked at as the parameters say. The trials are read where they lie: moved out of them, a micro-cluster made
// the compiler keep one more copy of the whole stream.
pub fn place(
    potential: &[DenMicro],
    outliers: &[DenMicro],
    params: &DenParams,
    t: f64,
    x: &[f64],
) -> Placement
    ensures { placement_told (size_of params.now x.now) result
        ≡ placement_of (sized (size_of params.now x.now) params.now) t (pools_in (size_of params.now x.now) potential.now outliers.now)
        (take (size_of params.now x.now) x.now) }
{
    let point = &x[..x.len().min(params.settings.dim.min(MAX_DIM))];
    let p = den_pool::try_merge(potential, params, t, point);
    let near = p.near;
    if let Ok(absorbed) = &p.taken {
        let target = Target::Potential(absorbed.place);
        let micro = absorbed.micro;
        let placed = Ok(Placed { target, micro });
        return Placement { placed, near };
    }
    let o = den_pool::try_merge(outliers, params, t, point);
    let near = smaller(near, o.near);
    let has_place = potential.len() + outliers.len() < MICROS;
    let placed = match &o.taken {
        Ok(absorbed) => Ok(Placed {
            target: grown(absorbed, params.bm),
            micro: absorbed.micro,
        }),
        Err(_) if has_place => Ok(Placed {
            target: Target::Newborn,
            micro: den_pool::newborn(point, t),
        }),
        Err(_) => Err(Absorbed {
            place: 0,
            micro: den_pool::newborn(point, t),
        }),
    };
    Placement { placed, near }
}
