// A whole run of a DenStream in plain numbers.
ghost use Rattle.std.specs.Prelude.{◌≡◌};
ghost use Rattle.session.specs.Points.{points_of};
ghost use Rattle.whole_runs.specs.Told.{told};
ghost use Rattle.whole_runs.specs.Streams.{denstream_run};

use crate::figures::Figures;
use crate::run::told_after;
use model::DenSettings;

// The run of `session`, clustered so many times more; `numbers` gets 0 or the refusal's number of each insert.
// By `denstream_session`, which promises demand 3 of its stream. The settings come one by one, as C passes them.
pub fn denstream_run(
    dim: usize,
    eps: f64,
    lambda: f64,
    beta: f64,
    mu: f64,
    values: &[f64],
    lengths: &[usize],
    rounds: u64,
    numbers: &mut [u64],
) -> Figures
    ensures { told result numbers.new
        ≡ denstream_run (record { dim = dim; eps = eps; lambda = lambda; beta = beta; mu = mu })
        (points_of lengths.now values.now) rounds numbers.old }
{
    let settings = DenSettings {
        dim,
        eps,
        lambda,
        beta,
        mu,
    };
    told_after(
        session::denstream_session(settings, values, lengths, numbers),
        rounds,
    )
}
