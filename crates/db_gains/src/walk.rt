// A link gains: it is looked for from where the last one was found.
ghost use Rattle.std.specs.Prelude.{◌≡◌, ◌+◌, ◌-◌, ◌<◌, ◌≤◌, ◌++◌, ◌∷◌, length, take, drop};
ghost use Rattle.std.specs.List.{prefix_len};
ghost use Rattle.model.specs.DbInsert.{before, gain_in, has_room};
ghost use Rattle.db_gains.specs.Factor.{factor_of, gains_by};
ghost use Rattle.db_gains.specs.Walk.{Ready, advanced, resumed, sought, walk_after};
ghost use Rattle.db_gains.specs.Laws.Passed.{Passed};

use crate::factor::Factor;
use db_link::{is_before, key_of, same_ends};
use model::{LINKS, Link, MicroId};

// The links before `at` are known to stand before `key`; `steps` counts the links gone past for all keys so far, and a search from
// the front for each would count more; `factor` is kept from the last gain for the next.
#[derive(Clone, Copy)]
pub(crate) struct Walk {
    pub(crate) at: usize,
    pub(crate) key: Link,
    pub(crate) steps: usize,
    pub(crate) factor: Factor,
}

// How many links at the front stand before the key.
fn passed(links: &[Link], key: &Link) -> usize
    ensures { result ≡ prefix_len (λ l. before l key.now) links.now }
{
    links.iter().take_while(|l| is_before(l, key)).count()
}

// l faded to t, with 1 more.
fn gained(l: Link, fade: f64, t: f64) -> Link
    ensures { result ≡ gains_by fade t l }
{
    Link {
        value: l.value * fade + 1.0,
        last: t,
        ..l
    }
}

// Puts a link at a place; those from there on move up by one, and the last is lost.
fn insert(links: &mut [Link], at: usize, link: Link)
    requires { at < length links.old }
    ensures { links.new ≡ take at links.old ++ link ∷ drop at (take (length links.old - 1) links.old) }
{
    links[at..].rotate_right(1);
    links[at] = link;
}

impl Walk {
    // At the front.
    pub(crate) fn new(lambda: f64, t: f64) -> Self
        ensures front { result.at ≡ 0 }
        ensures factor { result.factor ≡ factor_of lambda t t }
    {
        let id = MicroId(0);
        Self {
            at: 0,
            key: key_of(id, id, t),
            steps: 0,
            factor: Factor::new(lambda, t, t),
        }
    }

    // For a key: from where it is, or from the front where the key stands before the old one.
    fn resume(&mut self, key: Link)
        ensures { self.new ≡ resumed self.old key }
    {
        if is_before(&key, &self.key) {
            self.at = 0;
        }
        self.key = key;
    }

    // On past the links that stand before its key.
    fn advance(&mut self, links: &[Link])
        requires { self.old.at ≤ length links.now }
        ensures { self.new ≡ advanced links.now self.old }
    {
        let steps = passed(&links[self.at..], &self.key);
        self.at += steps;
        // It never wraps: each of a stream's 2,016 pairs goes past 2,016 links at most.
        self.steps = self.steps.wrapping_add(steps);
    }

    // To the first link that does not stand before the key. Those passed stand before the old key, so before a new one too that is not smaller.
    fn seek(&mut self, links: &[Link], key: Link)
        requires place { self.old.at ≤ length links.now }
        requires passed { Passed self.old.key (take self.old.at links.now) }
        ensures { self.new ≡ sought key links.now self.old }
    {
        self.resume(key);
        self.advance(links);
    }

    // The key's link gains, or a new one goes to its place, where there is room; how many there are now. The stream's array and
    // count as they are, since a new one needs a place behind those that are there.
    pub(crate) fn gain(
        &mut self,
        links: &mut [Link; LINKS],
        count: usize,
        key: Link,
        lambda: f64,
        t: f64,
    ) -> usize
        requires ready { Ready lambda t self.old (take count links.old) }
        requires few { count ≤ LINKS }
        ensures walk { self.new ≡ walk_after lambda t key (take count links.old) self.old }
        ensures ready { Ready lambda t self.new (take result links.new) }
        ensures more { count ≤ result }
        ensures few { result ≤ LINKS }
        ensures rest { drop result links.new ≡ drop result links.old }
        ensures gained { take result links.new ≡ gain_in lambda t (has_room (take count links.old)) key (take count links.old) }
    {
        self.seek(&links[..count], key);
        let at = self.at;
        if at < count && same_ends(&links[at], &key) {
            let link = links[at];
            let fade = self.factor.since(lambda, t, link.last);
            links[at] = gained(link, fade, t);
            return count;
        }
        if count == LINKS {
            return count;
        }
        let fade = feature::fade(lambda, t, key.last);
        insert(&mut links[..count + 1], at, gained(key, fade, t));
        count + 1
    }
}
