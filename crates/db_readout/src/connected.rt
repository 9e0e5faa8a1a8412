// Connectivity: the link of a pair over the mean of its weights, all faded to the present.
ghost use Rattle.std.specs.Prelude.{◌≡◌, find, nat_eq};
ghost use Rattle.model.specs.Answers.{connectivity_said};
ghost use Rattle.model.specs.DbInsert.{same_ends};
ghost use Rattle.dbstream.specs.View.{view};
ghost use Rattle.db_readout.specs.Connectivity.{are_live, weight_now, mean_now, density_over, connectivity_of};

use db_link::{is_held, key_of, same_ends};
use dbstream::DbStream;
use model::{DbMicro, Link, MicroId, NotLive};

// Whether both creation numbers are held, and different.
fn are_live(micros: &[DbMicro], a: MicroId, b: MicroId) -> bool
    ensures { result ≡ are_live micros.now a b }
{
    is_held(micros, a) && is_held(micros, b) && a != b
}

// The micro-cluster of a creation number.
fn micro_of(micros: &[DbMicro], id: MicroId) -> Option<DbMicro>
    ensures { result ≡ find (λ m. nat_eq m.id.0 id.0) micros.now }
{
    micros.iter().copied().find(|m| m.id == id)
}

// The link of the key's ends.
fn link_of(links: &[Link], key: &Link) -> Option<Link>
    ensures { result ≡ find (λ l. same_ends l key.now) links.now }
{
    links.iter().copied().find(|l| same_ends(l, key))
}

// The weight of the micro-cluster of a creation number, faded to t; 0 without one.
fn weight_now(micros: &[DbMicro], id: MicroId, lambda: f64, t: f64) -> f64
    ensures { result ≡ weight_now lambda t micros.now id }
{
    micro_of(micros, id).map_or(0.0, |m| m.body.faded_weight(lambda, t))
}

// The mean of the weights of two.
fn mean_weight(micros: &[DbMicro], a: MicroId, b: MicroId, lambda: f64, t: f64) -> f64
    ensures { result ≡ mean_now lambda t micros.now a b }
{
    let wa = weight_now(micros, a, lambda, t);
    let wb = weight_now(micros, b, lambda, t);
    (wa + wb) / 2.0
}

// The link of a and b, faded to t, over the mean of their weights; 0 without a link, and where the mean is 0.
fn density(links: &[Link], a: MicroId, b: MicroId, mean: f64, lambda: f64, t: f64) -> f64
    ensures { result ≡ density_over lambda t mean links.now a b }
{
    if mean == 0.0 {
        return 0.0;
    }
    let key = key_of(a, b, t);
    link_of(links, &key).map_or(0.0, |l| model::faded(l.value, lambda, t, l.last) / mean)
}

// The link of two live micro-clusters over the mean of their weights, link and weights as faded by now.
pub fn connectivity(stream: &DbStream, a: MicroId, b: MicroId) -> Result<f64, NotLive>
    ensures { connectivity_said result ≡ connectivity_of (view stream.now) a b }
{
    let micros = stream.held();
    if !are_live(micros, a, b) {
        return Err(NotLive);
    }
    let lambda = stream.params.settings.lambda;
    let t = stream.t;
    let mean = mean_weight(micros, a, b, lambda, t);
    Ok(density(stream.held_links(), a, b, mean, lambda, t))
}
