// The places of strong micro-clusters that dense links join, and the labels that this gives.
#![tactic(auto)]

ghost use Rattle.std.specs.Prelude.{◌≡◌, ◌≤◌, ◌==◌, false, min, length, map, position, take, get_or};
ghost use Rattle.union_find.specs.Steps.{find_steps, work_by};
ghost use Rattle.model.specs.Limits.{micros_most, links_most};
ghost use Rattle.model.specs.Families.{labels_by};
ghost use Rattle.model.specs.DbInsert.{id_of};
ghost use Rattle.db_joins.specs.Joined.{joined_by};
ghost use Rattle.db_joins.specs.Inside.Ends.{ends_by};

use arrayvec::ArrayVec;
use labels::Labelled;
use model::{DbMicro, LINKS, Link, MICROS, MicroId};

// The place of a creation number.
fn place_of(micros: &[DbMicro], id: MicroId) -> Option<usize>
    ensures { result ≡ position (λ m. m.id.0 == id.0) micros.now }
{
    micros.iter().position(|m| m.id == id)
}

// Whether the place is strong: none past the list is.
fn is_strong(strong: &[bool], i: usize) -> bool
    ensures { result ≡ get_or strong.now i false }
{
    strong.get(i).is_some_and(|s| *s)
}

// What says which links join: the micro-clusters in list order, which of them are strong, the fade to t, and the least faded
// value of a link that joins.
#[derive(Clone, Copy)]
struct Joining<'a> {
    micros: &'a [DbMicro],
    strong: &'a [bool],
    lambda: f64,
    t: f64,
    dense: f64,
}

impl Joining<'_> {
    // The places of the ends, if the link joins them: both are strong, and it has faded to no less than dense.
    fn ends(&self, l: &Link) -> Option<(usize, usize)>
        requires { length self.now.strong.now ≤ length self.now.micros.now }
        ensures { result ≡ ends_by (map id_of self.now.micros.now) self.now.strong.now self.now.lambda self.now.t self.now.dense l.now }
    {
        let i = place_of(self.micros, l.lo)?;
        let j = place_of(self.micros, l.hi)?;
        let joins = is_strong(self.strong, i)
            && is_strong(self.strong, j)
            && self.dense <= model::faded(l.value, self.lambda, self.t, l.last);
        joins.then_some((i, j))
    }

    // The pairs in the order of the links.
    fn pairs(&self, links: &[Link]) -> ArrayVec<(usize, usize), LINKS>
        requires told { length self.now.strong.now ≤ length self.now.micros.now }
        requires few { length links.now ≤ LINKS }
        ensures { result.items ≡ joined_by (map id_of self.now.micros.now) self.now.strong.now self.now.lambda self.now.t self.now.dense links.now }
    {
        let mut pairs = ArrayVec::new();
        for l in links {
            if let Some(ends) = self.ends(l) {
                pairs.push(ends);
            }
        }
        pairs
    }
}

// The labels of the micro-clusters that `strong` speaks of: by first member where strong, −1 elsewhere. Roots are sought for the strong ones.
pub fn labels_of(
    links: &[Link],
    micros: &[DbMicro],
    strong: &[bool],
    lambda: f64,
    t: f64,
    dense: f64,
) -> Labelled
    ensures labels_value { let known = take (min (length micros.now) micros_most) strong.now in
        take (length known) result.labels ≡ labels_by known (joined_by (map id_of micros.now) known lambda t dense (take links_most links.now)) }
    ensures work { let known = take (min (length micros.now) micros_most) strong.now in
        result.work ≡ work_by (find_steps known (joined_by (map id_of micros.now) known lambda t dense (take links_most links.now))) }
{
    let links = &links[..links.len().min(LINKS)];
    let strong = &strong[..strong.len().min(micros.len()).min(MICROS)];
    let joining = Joining {
        micros,
        strong,
        lambda,
        t,
        dense,
    };
    let pairs = joining.pairs(links);
    let rooted = union_find::roots(&pairs, strong);
    Labelled {
        labels: labels::labels(&rooted.roots, strong),
        work: rooted.work,
    }
}
