// The order of links, by the creation numbers of their ends.
ghost use Rattle.std.specs.Prelude.{◌≡◌};
ghost use Rattle.model.specs.DbInsert.{before, same_ends};
ghost use Rattle.db_link.specs.Order.{key_of};

use model::{Link, MicroId};

// Whether l stands before k. This and `same_ends` are public and promised: their clauses say that the derived order of the ends
// is the definitions' `before`, and their equality the definitions' `same_ends`.
pub fn is_before(l: &Link, k: &Link) -> bool
    ensures { result ≡ before l.now k.now }
{
    l.ends() < k.ends()
}

// Whether l and k have the same ends.
pub fn same_ends(l: &Link, k: &Link) -> bool
    ensures { result ≡ same_ends l.now k.now }
{
    l.ends() == k.ends()
}

// The link of two creation numbers, the smaller first, before its first gain.
pub fn key_of(a: MicroId, b: MicroId, t: f64) -> Link
    ensures { result ≡ key_of a b t }
{
    Link {
        lo: a.min(b),
        hi: a.max(b),
        value: 0.0,
        last: t,
    }
}
