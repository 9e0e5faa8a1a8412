// The links that a cleanup keeps.
ghost use Rattle.std.specs.Prelude.{◌≡◌, ◌≤◌, drop, length, nat_eq, take};
ghost use Rattle.std.specs.List.{list_any};
ghost use Rattle.lists.specs.Retain.{retain};
ghost use Rattle.model.specs.DbInsert.{is_held, link_stays};

use model::{DbMicro, Link, MicroId};

// The search, in std's words: a chain is proved by these alone.
fn some_has(micros: &[DbMicro], id: MicroId) -> bool
    ensures { result ≡ list_any (λ m. nat_eq m.id.0 id.0) micros.now }
{
    micros.iter().any(|m| m.id == id)
}

// Whether one of the micro-clusters has this creation number.
pub fn is_held(micros: &[DbMicro], id: MicroId) -> bool
    ensures { result ≡ is_held micros.now id }
{
    some_has(micros, id)
}

// Whether both ends are held and the faded value is not below floor.
fn stays(link: &Link, micros: &[DbMicro], lambda: f64, floor: f64, t: f64) -> bool
    ensures { result ≡ link_stays lambda floor t micros.now link.now }
{
    is_held(micros, link.lo)
        && is_held(micros, link.hi)
        && !(model::faded(link.value, lambda, t, link.last) < floor)
}

// Keeps in front, in order, the links that lost no end and did not fade below floor, and counts them; micros are those left.
pub fn retained(links: &mut [Link], micros: &[DbMicro], lambda: f64, floor: f64, t: f64) -> usize
    ensures kept { take result links.new ≡ retain (link_stays lambda floor t micros.now) links.old }
    ensures few { result ≤ length links.old }
    ensures rest { drop result links.new ≡ drop result links.old }
{
    lists::retain(links, |link| stays(link, micros, lambda, floor, t))
}
