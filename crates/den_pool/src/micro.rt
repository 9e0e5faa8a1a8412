// One micro-cluster of a pool.
ghost use Rattle.std.specs.Prelude.{◌≡◌};
ghost use Rattle.feature.specs.Feature.{max_dim};
ghost use Rattle.model.specs.DenInsert.{absorbs};
ghost use Rattle.model.specs.DenInsert as doc;

use model::{Body, DenMicro};

// A new one, of the point alone. This and `absorbed` stand in db_neighbours too: each is a record of its own fields, a line or two
// round `Body::birth` and `Body::absorbing`, which are shared.
pub fn newborn(x: &[f64], t: f64) -> DenMicro
    ensures { result ≡ doc.newborn max_dim t x.now }
{
    DenMicro {
        body: Body::birth(x, t),
        t0: t,
    }
}

// A copy, faded to t, that absorbed the point.
pub(crate) fn absorbed(m: &DenMicro, x: &[f64], lambda: f64, t: f64) -> DenMicro
    ensures { result ≡ absorbs lambda t x.now m.now }
{
    DenMicro {
        body: m.body.absorbing(x, lambda, t),
        ..*m
    }
}

// Whether a copy that absorbed is still within eps.
pub(crate) fn stands(m: &DenMicro, eps2: f64) -> bool
    ensures { result ≡ doc.stands eps2 m.now }
{
    let cf = &m.body.cf;
    0.0 < cf.w && cf.ssd / cf.w <= eps2
}
