// How a point joins the micro-clusters.
ghost use Rattle.std.specs.Prelude.{◌≡◌, ◌≤◌, drop, length, take};
ghost use Rattle.float.specs.Rounded.{◌⊗◌};
ghost use Rattle.feature.specs.Feature.{max_dim};
ghost use Rattle.model.specs.DbInsert.{absorbs};
ghost use Rattle.model.specs.DbInsert as doc;
ghost use Rattle.db_neighbours.specs.Near.{absorb_near};
ghost use Rattle.db_neighbours.specs.Placing.{placed_among, next_after};

use crate::scan::Scan;
use model::{Body, DbMicro, MICROS, MicroId};

// `newborn` and `absorbed` stand in den_pool too: each is a record of its own stream's fields, and what they share is
// `Body::birth` and `Body::absorbing`.

// A micro-cluster that holds the point alone.
fn newborn(x: &[f64], t: f64, id: MicroId) -> DbMicro
    ensures { result ≡ doc.newborn max_dim id t x.now }
{
    DbMicro {
        body: Body::birth(x, t),
        id,
    }
}

// Faded to t, with the point.
fn absorbed(m: DbMicro, x: &[f64], lambda: f64, t: f64) -> DbMicro
    ensures { result ≡ absorbs lambda t x.now m }
{
    DbMicro {
        body: m.body.absorbing(x, lambda, t),
        ..m
    }
}

// Those that are near absorb the point; distances[i] is how far micros[i] is from it.
fn absorb(micros: &mut [DbMicro], distances: &[f64], x: &[f64], r: f64, lambda: f64, t: f64)
    requires { length distances.now ≤ length micros.old }
    ensures { micros.new ≡ absorb_near (r ⊗ r) (absorbs lambda t x.now) distances.now micros.old }
{
    let r2 = r * r;
    for (i, d) in distances.iter().enumerate() {
        if *d <= r2 {
            micros[i] = absorbed(micros[i], x, lambda, t);
        }
    }
}

// The neighbours that the scan found absorb the point; with none, a new one goes to the end, where there is a place: so it is
// lent the whole array and the count.
pub fn with_point(
    micros: &mut [DbMicro; MICROS],
    count: &mut usize,
    next_id: &mut MicroId,
    scan: &Scan,
    x: &[f64],
    r: f64,
    lambda: f64,
    t: f64,
)
    ensures micros { take count.new micros.new ≡ placed_among scan.now r lambda t next_id.old x.now count.old (take count.old micros.old) }
    ensures count { count.new ≤ MICROS }
    ensures rest { drop count.new micros.new ≡ drop count.new micros.old }
    ensures next { next_id.new ≡ next_after scan.now count.old next_id.old }
{
    let held = (*count).min(MICROS);
    *count = held;
    if scan.count != 0 {
        let distances = &scan.distances[..held];
        absorb(&mut micros[..held], distances, x, r, lambda, t);
    } else if held < MICROS {
        micros[held] = newborn(x, t, *next_id);
        *count = held + 1;
        *next_id = MicroId(next_id.0.wrapping_add(1));
    }
}
