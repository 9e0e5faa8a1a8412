// The trial of a pool's nearest: whether it takes the point.
ghost use Rattle.std.specs.Prelude.{◌≡◌, map, length};
ghost use Rattle.den_pool.specs.Held.{kept_of, sized, micro_in};
ghost use Rattle.den_pool.specs.Tried.{tried_of, trial_told};

use crate::micro::{absorbed, newborn, stands};
use model::{DenMicro, DenParams};

// A copy that absorbed the point, and the place of the one it was made of; or the point alone, whose place is 0.
#[derive(Clone, Copy)]
pub struct Absorbed {
    pub place: usize,
    pub micro: DenMicro,
}

#[derive(Clone, Copy)]
pub struct Trial {
    // The pool's nearest distance, if it has one.
    pub near: Option<f64>,
    // The nearest's copy once it absorbed the point, if it stands; if not, the copy too, and of an empty pool the point alone.
    pub taken: Result<Absorbed, Absorbed>,
}

// A copy of the nearest absorbs the point; without a nearest, the point stands alone at place 0.
pub fn try_merge(pool: &[DenMicro], params: &DenParams, t: f64, x: &[f64]) -> Trial
    ensures { trial_told (length x.now) result
        ≡ tried_of (sized (kept_of x.now) params.now) t x.now (map (micro_in (length x.now)) pool.now) }
{
    let nearest = readout::nearest_by(pool, |m| feature::sq_euclidean(&m.body.cf.mean, x));
    let Some(found) = nearest else {
        return Trial {
            near: None,
            taken: Err(Absorbed {
                place: 0,
                micro: newborn(x, t),
            }),
        };
    };
    let place = found.place;
    let micro = absorbed(&pool[place], x, params.settings.lambda, t);
    let copy = Absorbed { place, micro };
    let taken = if stands(&micro, params.eps2) {
        Ok(copy)
    } else {
        Err(copy)
    };
    Trial {
        near: Some(found.dist),
        taken,
    }
}
