// Every pair of neighbours gains, in one pass over the links while the pairs' links ascend.
ghost use Rattle.std.specs.Prelude.{◌≡◌, ◌≤◌, drop, map, take};
ghost use mathlib.Core.List.{foldl};
ghost use Rattle.model.specs.DbInsert.{gain_of, pair_of, pairs_of};
ghost use Rattle.db_gains.specs.Walk.{Ready, pairs_walked};

use crate::walk::Walk;
use db_link::key_of;
use model::{LINKS, Link, MicroId};

impl Walk {
    // Each pair of a and one of the others. Array, count, lambda and t go together from call to call, as in `gain`: a struct of
    // them would be made from the stream's fields and taken apart again for each point, and document 01 names the list with its count.
    fn gain_row(
        &mut self,
        links: &mut [Link; LINKS],
        mut count: usize,
        a: MicroId,
        others: &[MicroId],
        lambda: f64,
        t: f64,
    ) -> usize
        requires ready { Ready lambda t self.old (take count links.old) }
        requires few { count ≤ LINKS }
        ensures ready { Ready lambda t self.new (take result links.new) }
        ensures more { count ≤ result }
        ensures few { result ≤ LINKS }
        ensures rest { drop result links.new ≡ drop result links.old }
        ensures walked { (self.new, take result links.new) ≡ pairs_walked lambda t (self.old, take count links.old) (map (pair_of a) others.now) }
    {
        for b in others {
            count = self.gain(links, count, key_of(a, *b, t), lambda, t);
        }
        count
    }

    // Each pair of the ids.
    fn gain_rows(
        &mut self,
        links: &mut [Link; LINKS],
        mut count: usize,
        ids: &[MicroId],
        lambda: f64,
        t: f64,
    ) -> usize
        requires ready { Ready lambda t self.old (take count links.old) }
        requires few { count ≤ LINKS }
        ensures few { result ≤ LINKS }
        ensures rest { drop result links.new ≡ drop result links.old }
        ensures walked { (self.new, take result links.new) ≡ pairs_walked lambda t (self.old, take count links.old) (pairs_of ids.now) }
    {
        for (i, a) in ids.iter().enumerate() {
            count = self.gain_row(links, count, *a, &ids[i + 1..], lambda, t);
        }
        count
    }
}

// The first `count` links gain by each pair of the neighbours ids; how many there are then. The whole array and a count, since new
// links come behind those that are there: the stream's own two fields, "a link list of at most 2,016".
pub fn gain_pairs(
    links: &mut [Link; LINKS],
    count: usize,
    ids: &[MicroId],
    lambda: f64,
    t: f64,
) -> usize
    ensures gained { take result links.new ≡ foldl (gain_of lambda t) (take count links.old) (pairs_of ids.now) }
    ensures few { result ≤ LINKS }
    ensures rest { drop result links.new ≡ drop result links.old }
{
    let held = count.min(LINKS);
    let mut walk = Walk::new(lambda, t);
    walk.gain_rows(links, held, ids, lambda, t)
}
