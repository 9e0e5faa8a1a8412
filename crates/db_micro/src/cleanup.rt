// Which micro-clusters a cleanup leaves.
ghost use Rattle.std.specs.Prelude.{◌≡◌, ◌≤◌, drop, length, take};
ghost use Rattle.lists.specs.Retain.{retain};
ghost use Rattle.model.specs.DbInsert.{micro_stays};

use model::DbMicro;

// Keeps in front, in order, those whose faded weight is not below the floor, and counts them.
pub fn retained(micros: &mut [DbMicro], lambda: f64, t: f64, floor: f64) -> usize
    ensures kept { take result micros.new ≡ retain (micro_stays lambda floor t) micros.old }
    ensures few { result ≤ length micros.old }
    ensures rest { drop result micros.new ≡ drop result micros.old }
{
    lists::retain(micros, |m| !(m.body.faded_weight(lambda, t) < floor))
}
