// `UnionFind` by rank with path halving, the roots after a list of pairs was joined, and the work that finding them was.
ghost use Rattle.std.specs.Prelude.{◌≡◌, ◌+◌, ◌^◌, ◌<◌, ◌≤◌, take, get_or};
ghost use Rattle.union_find.specs.Forest.{places, new_of, find_of, link_of, union_of, join_of, join_all, roots_in};
ghost use Rattle.union_find.specs.Steps.{union_steps, join_steps, joins_steps, find_steps, work_by};
ghost use Rattle.union_find.specs.Inside.WellFormed.{Sound};
ghost use Rattle.union_find.specs.Inside.Told.{found_told, linked_of, joins_by, forest_by};

use crate::PLACES;
use std::array;
use std::marker::Model;

// The parent of each place, a root being its own, and the ranks of the roots: ranks rise with the parents. Two arrays, since finding
// walks the parents alone: with pairs each step would take one apart.
#[derive(Clone, Copy)]
struct UnionFind {
    parent: [usize; PLACES],
    rank: [u8; PLACES],
}

impl Model for UnionFind {
    ghost use Rattle.union_find.specs.Ranked.{Ranked};

    ghost Value = { Ranked };

    ghost use Rattle.union_find.specs.Inside.WellFormed.{WellFormed};

    ghost view = { λ u. record { parent = u.parent; rank = u.rank } };

    ghost invariant = { λ u. WellFormed u.parent u.rank };

    ghost inverse = { λ v. record { parent = v.parent; rank = v.rank } };
}

// A root, and the halving steps on the way to it.
#[derive(Clone, Copy)]
struct Reached {
    root: usize,
    steps: u64,
}

// Finds that were made, and the halving steps of all of them.
#[derive(Clone, Copy)]
pub struct Work {
    pub finds: u64,
    pub steps: u64,
}

// A forest after joins, and the finds that were made for them.
#[derive(Clone, Copy)]
struct Joins {
    forest: UnionFind,
    work: Work,
}

// The root of each place that was sought, and all finds that were made. At every other place stands 0, which is not read: with an
// Option each reader would have to say again which places were sought.
#[derive(Clone, Copy)]
pub struct Rooted {
    pub roots: [usize; PLACES],
    pub work: Work,
}

// Which of two roots goes under which, and the rank of the one above.
#[derive(Clone, Copy)]
struct Linked {
    under: usize,
    above: usize,
    rank: u8,
}

impl Work {
    // Work that came after. No `+=`, which is public and would ask something of its callers.
    fn add(&mut self, more: Work)
        requires { (self.old.finds + more.finds < 2 ^ 64) × (self.old.steps + more.steps < 2 ^ 64) }
        ensures { self.new ≡ record { finds = self.old.finds + more.finds; steps = self.old.steps + more.steps } }
    {
        self.finds += more.finds;
        self.steps += more.steps;
    }
}

// Of the roots x and y with these ranks the lower goes under the higher, and of equals y under x, whose rank grows.
fn by_rank(x: usize, y: usize, rx: u8, ry: u8) -> Linked
    requires { rx ≤ 6 }
    ensures { result ≡ linked_of x y rx ry }
{
    if rx < ry {
        return Linked {
            under: x,
            above: y,
            rank: ry,
        };
    }
    Linked {
        under: y,
        above: x,
        rank: if rx == ry { rx + 1 } else { rx },
    }
}

// Places stay numbers with a bound at each step: they come as the caller's pairs, and a type for them would be taken apart at
// each index.
impl UnionFind {
    // Each place its own root.
    fn new() -> Self
        ensures { result ≡ new_of }
    {
        Self {
            parent: array::from_fn(|i| i),
            rank: [0; PLACES],
        }
    }

    // The root of x; each place met on the way up gets its grandparent for a parent. A while, since the way is no list.
    // `sound` is the type's invariant, told to a caller.
    fn find(&mut self, x: usize) -> Reached
        requires place { x < places }
        ensures sound { Sound self.old }
        ensures found { found_told self.new.parent result ≡ find_of self.old.parent x }
        ensures ranks { self.new.rank ≡ self.old.rank }
    {
        let mut at = x;
        let mut steps: u64 = 0;
        while self.parent[at] != at {
            let up = self.parent[at];
            let grand = self.parent[up];
            self.parent[at] = grand;
            at = grand;
            steps += 1;
        }
        Reached { root: at, steps }
    }

    // The roots x and y made one: the lower rank goes under the higher, and of equals y under x. Of two places that are no roots
    // this would not leave a `UnionFind`, so it takes the arrays.
    fn link(parent: &mut [usize; PLACES], rank: &mut [u8; PLACES], x: usize, y: usize)
        requires low { get_or rank.old x 0 ≤ 6 }
        requires both { (x < places) × (y < places) }
        ensures { forest_by parent.new rank.new ≡ link_of (forest_by parent.old rank.old) x y }
    {
        if x != y {
            let to = by_rank(x, y, rank[x], rank[y]);
            parent[to.under] = to.above;
            rank[to.above] = to.rank;
        }
    }

    // The classes of a and b made one.
    fn union(&mut self, a: usize, b: usize) -> Work
        requires both { (a < places) × (b < places) }
        ensures after { self.new ≡ union_of self.old a b }
        ensures work { result ≡ work_by (union_steps self.old a b) }
    {
        let x = self.find(a);
        let y = self.find(b);
        Self::link(&mut self.parent, &mut self.rank, x.root, y.root);
        Work {
            finds: 2,
            steps: x.steps + y.steps,
        }
    }

    // A pair with a place that is not below n joins nothing.
    fn join(&mut self, a: usize, b: usize, n: usize) -> Work
        requires few { n ≤ places }
        ensures after { self.new ≡ join_of n self.old (a, b) }
        ensures work { result ≡ work_by (join_steps n self.old (a, b)) }
    {
        if a < n && b < n {
            return self.union(a, b);
        }
        Work { finds: 0, steps: 0 }
    }
}

// The forest after the pairs were joined in order, chained already or not. n stays a number with its bound, here and in `join`: it is
// the length of the caller's slice, cut to the places in `roots`.
fn joined(pairs: &[(usize, usize)], n: usize) -> Joins
    requires { n ≤ places }
    ensures { result ≡ joins_by (join_all n new_of pairs.now) (joins_steps n new_of pairs.now) }
{
    let mut forest = UnionFind::new();
    let mut work = Work { finds: 0, steps: 0 };
    for &(a, b) in pairs {
        work.add(forest.join(a, b, n));
    }
    Joins { forest, work }
}

// The roots of the places that are sought, after the pairs of so many places were joined in order. Places past PLACES are none.
pub fn roots(pairs: &[(usize, usize)], sought: &[bool]) -> Rooted
    ensures roots_value { result.roots ≡ roots_in (take places sought.now) pairs.now }
    ensures work { result.work ≡ work_by (find_steps (take places sought.now) pairs.now) }
{
    let sought = &sought[..sought.len().min(PLACES)];
    let Joins {
        mut forest,
        mut work,
    } = joined(pairs, sought.len());
    let mut roots = [0usize; PLACES];
    for (i, &wanted) in sought.iter().enumerate() {
        if wanted {
            let found = forest.find(i);
            roots[i] = found.root;
            work.add(Work {
                finds: 1,
                steps: found.steps,
            });
        }
    }
    Rooted { roots, work }
}
