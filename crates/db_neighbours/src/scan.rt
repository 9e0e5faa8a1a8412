// What a point meets.
ghost use Rattle.std.specs.Prelude.{◌≡◌, ◌≤◌, min, map, length, take, Float};
ghost use Rattle.std.specs.Float.Ieee.{le};
ghost use Rattle.lists.specs.Retain.{retain};
ghost use Rattle.model.specs.declared.micro.DbMicro.{DbMicro};
ghost use Rattle.model.specs.DbInsert.{id_of};
ghost use Rattle.feature.specs.Feature.{max_dim};
ghost use Rattle.db_micro.specs.Held.{held};
ghost use Rattle.db_neighbours.specs.Placing.{has_place_by};
ghost use Rattle.db_neighbours.specs.Scanned.{scan_told, scan_of};

use crate::nearest::least;
use model::{DbMicro, MICROS, MicroId};

// The distances, the least of them, and the neighbours' creation numbers, of which the first count are there: an array and a
// count, since a scan is Copy, which an ArrayVec is not.
#[derive(Clone, Copy)]
pub struct Scan {
    pub distances: [f64; MICROS],
    pub nearest: Option<f64>,
    pub ids: [MicroId; MICROS],
    pub count: usize,
}

impl Scan {
    // The neighbours' creation numbers.
    pub fn neighbours(&self) -> &[MicroId]
        ensures { result.now ≡ take self.now.count self.now.ids }
    {
        &self.ids[..self.count.min(MICROS)]
    }

    // Whether the point would be absorbed, or fewer than 64 micro-clusters are held.
    pub fn has_place(&self, held: usize) -> bool
        ensures { result ≡ has_place_by self.now held }
    {
        self.count != 0 || held < MICROS
    }
}

// The creation numbers of those at most r2 away, and how many they are.
fn near_ids(micros: &[DbMicro], distances: &[f64], r2: f64) -> ([MicroId; MICROS], usize)
    requires { length micros.now ≤ MICROS }
    ensures few { result.1 ≤ length micros.now }
    ensures near { (d : DbMicro → Float) → distances.now ≡ map d micros.now
        → take result.1 result.0 ≡ map id_of (retain (λ m. le (d m) r2) micros.now) }
{
    let mut ids = [MicroId(0); MICROS];
    let mut count = 0;
    for (m, d) in micros.iter().zip(distances) {
        if *d <= r2 {
            ids[count] = m.id;
            count += 1;
        }
    }
    (ids, count)
}

// Before anything changes, this measures what the neighbourhood and the drift monitor need.
pub fn scan_for(micros: &[DbMicro], x: &[f64], dim: usize, r: f64) -> Scan
    ensures { scan_told (length micros.now) result ≡ scan_of r x.now (held (min dim max_dim) MICROS micros.now) }
{
    let micros = &micros[..micros.len().min(MICROS)];
    let distances = lists::each(micros, 0.0, |m| m.body.distance(x, dim));
    let measured = &distances[..micros.len()];
    let (ids, count) = near_ids(micros, measured, r * r);
    let nearest = least(measured);
    Scan {
        distances,
        nearest,
        ids,
        count,
    }
}
