// The spherical feature: one sum of squared deviations for all coordinates.
ghost use Rattle.std.specs.Prelude.{◌≡◌};
ghost use Rattle.feature.specs.Feature.{max_dim, empty, pushed, decayed};

use crate::MAX_DIM;

// Weight, mean, and the sum of squared deviations from it; places past dim are unused.
#[derive(Clone, Copy)]
pub struct Spherical {
    pub w: f64,
    pub mean: [f64; MAX_DIM],
    pub ssd: f64,
}

impl Spherical {
    // No points.
    pub fn new() -> Self
        ensures { result ≡ empty max_dim }
    {
        Spherical {
            w: 0.0,
            mean: [0.0; MAX_DIM],
            ssd: 0.0,
        }
    }

    // The point joins with weight 1.
    pub fn push(mut self, x: &[f64]) -> Self
        ensures { result ≡ pushed self x.now }
    {
        let k = x.len().min(MAX_DIM);
        let grown = self.w + 1.0;
        let factor = 1.0 / grown;
        let c = 1.0 * (1.0 - 1.0 / grown);
        let mut n = 0.0;
        for (i, x) in x[..k].iter().enumerate() {
            let m = self.mean[i];
            let d = *x - m;
            n = n + d * d;
            self.mean[i] = m + factor * d;
        }
        self.w = grown;
        self.ssd = self.ssd + c * n;
        self
    }

    // The weight and the spread fade by the factor f; the mean stays.
    pub fn decay(mut self, f: f64) -> Self
        ensures { result ≡ decayed self f }
    {
        self.w = self.w * f;
        self.ssd = self.ssd * f;
        self
    }

    // How many points there are, as far as they have not faded.
    pub fn weight(&self) -> f64
        ensures { result ≡ self.now.w }
    {
        self.w
    }

    // The centre of the points.
    pub fn mean(&self) -> [f64; MAX_DIM]
        ensures { result ≡ self.now.mean }
    {
        self.mean
    }

    // The sum of squared deviations from the mean.
    pub fn ssd(&self) -> f64
        ensures { result ≡ self.now.ssd }
    {
        self.ssd
    }
}
