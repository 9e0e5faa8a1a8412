// The weights of a pool's micro-clusters, and one of them taken out.
ghost use Rattle.std.specs.Prelude.{◌≡◌, map, length, take, drop};
ghost use Rattle.lists.specs.Retain as list;
ghost use Rattle.model.specs.Limits.{micros_most};
ghost use Rattle.den_pool.specs.Held.{weight_of};

use model::{DenMicro, MICROS};

// The weight of each of the first 64, faded to t.
pub fn faded_weights(pool: &[DenMicro], lambda: f64, t: f64) -> [f64; MICROS]
    ensures { take (length pool.now) result ≡ map (weight_of lambda t) (take micros_most pool.now) }
{
    lists::each(pool, 0.0, |m| m.body.faded_weight(lambda, t))
}

// Takes out the one at the place, if it is there: the others keep their order in front, and are counted; it stands behind them.
pub fn without(pool: &mut [DenMicro], place: usize) -> usize
    ensures result_value { take result pool.new ≡ list.without place pool.old }
    ensures counted { result ≡ length (take result pool.new) }
    ensures behind { drop result pool.new ≡ take 1 (drop place pool.old) }
{
    if pool.len() <= place {
        return pool.len();
    }
    pool[place..].rotate_left(1);
    pool.len() - 1
}
