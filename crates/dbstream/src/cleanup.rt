// What a cleanup leaves.
ghost use Rattle.std.specs.Prelude.{◌≡◌, take};
ghost use Rattle.lists.specs.Retain.{retain};
ghost use Rattle.model.specs.DbInsert.{link_stays};
ghost use Rattle.model.specs.Stream.{cleaned_of};
ghost use Rattle.model.specs.Dbstream.{dbstream};
ghost use Rattle.dbstream.specs.View.{view};

use crate::stream::DbStream;
use model::{DbMicro, LINKS, Link, MICROS};

// The first count links that lost no end and did not fade below floor, in front; how many they are. A function, since a part
// of one field's array is not lent to be changed while another field is lent.
fn links_left(
    links: &mut [Link; LINKS],
    count: usize,
    held: &[DbMicro],
    lambda: f64,
    floor: f64,
    t: f64,
) -> usize
    ensures { take result links.new ≡ retain (link_stays lambda floor t held.now) (take count links.old) }
{
    db_link::retained(&mut links[..count.min(LINKS)], held, lambda, floor, t)
}

impl DbStream {
    // Micro-clusters that faded below the floor go, then links that lost an end or faded below it.
    pub(crate) fn clean(&mut self)
        ensures { view self.new ≡ cleaned_of dbstream (view self.old) }
    {
        let t = self.t;
        let lambda = self.params.settings.lambda;
        let floor = self.params.floor;
        let n = self.count.min(MICROS);
        self.count = db_micro::retained(&mut self.micros[..n], lambda, t, floor);
        let held = &self.micros[..self.count];
        self.link_count = links_left(&mut self.links, self.link_count, held, lambda, floor, t);
    }
}
