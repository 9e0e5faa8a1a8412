// What both streams keep of a micro-cluster, and do to it.
ghost use Rattle.std.specs.Prelude.{◌≡◌, min};
ghost use Rattle.float.specs.Rounded.{nought};
ghost use Rattle.feature.specs.Feature.{max_dim, empty};
ghost use Rattle.model.specs.Body.{birth, absorbing, faded_weight, distance_to, radius_of, body_in};

use crate::fading::faded;
use feature::{MAX_DIM, Spherical};

// Its feature, and the clock at its latest birth or absorption.
#[derive(Clone, Copy)]
pub struct Body {
    pub cf: Spherical,
    pub last: f64,
}

impl Body {
    // For a place that holds none.
    pub fn new() -> Body
        ensures { result ≡ record { cf = empty max_dim; last = nought } }
    {
        Body {
            cf: Spherical::new(),
            last: 0.0,
        }
    }

    // Of one point.
    pub fn birth(x: &[f64], t: f64) -> Body
        ensures { result ≡ birth max_dim t x.now }
    {
        Body {
            cf: Spherical::new().push(x),
            last: t,
        }
    }

    // Faded to t, with the point.
    pub fn absorbing(self, x: &[f64], lambda: f64, t: f64) -> Body
        ensures { result ≡ absorbing lambda t x.now self }
    {
        let faded = self.cf.decay(feature::fade(lambda, t, self.last));
        Body {
            cf: faded.push(x),
            last: t,
        }
    }

    // The weight, faded to t.
    pub fn faded_weight(&self, lambda: f64, t: f64) -> f64
        ensures { result ≡ faded_weight lambda t self.now }
    {
        faded(self.cf.w, lambda, t, self.last)
    }

    // The squared distance of the mean's first dim coordinates from the point.
    pub fn distance(&self, x: &[f64], dim: usize) -> f64
        ensures { result ≡ distance_to x.now (body_in (min dim max_dim) self.now) }
    {
        feature::sq_euclidean(&self.cf.mean[..dim.min(MAX_DIM)], x)
    }

    // The root of the mean squared deviation; 0 without a weight.
    pub fn radius(&self) -> f64
        ensures { result ≡ radius_of self.now }
    {
        let cf = &self.cf;
        if 0.0 < cf.w {
            sqrt::sqrt(cf.ssd / cf.w)
        } else {
            0.0
        }
    }
}
