// Single parts of the micro-clusters, in the order of the list.
ghost use Rattle.std.specs.Prelude.{◌≡◌, length, map, take};
ghost use Rattle.db_micro.specs.Held.{reaches};
ghost use Rattle.model.specs.DbInsert.{id_of};

use lists::each;
use model::{DbMicro, MICROS, MicroId};

// The creation numbers.
pub fn ids_of(micros: &[DbMicro]) -> [MicroId; MICROS]
    ensures { take (length micros.now) result ≡ map id_of (take MICROS micros.now) }
{
    each(micros, MicroId(0), |m| m.id)
}

// Which faded weights reach min_weight.
pub fn strong_ones(micros: &[DbMicro], lambda: f64, t: f64, min_weight: f64) -> [bool; MICROS]
    ensures { take (length micros.now) result ≡ map (reaches lambda t min_weight) (take MICROS micros.now) }
{
    each(
        micros,
        false,
        |m| min_weight <= m.body.faded_weight(lambda, t),
    )
}
