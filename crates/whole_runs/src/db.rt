// A whole run of a DBSTREAM in plain numbers.
ghost use Rattle.std.specs.Prelude.{◌≡◌};
ghost use Rattle.session.specs.Points.{points_of};
ghost use Rattle.whole_runs.specs.Told.{told};
ghost use Rattle.whole_runs.specs.Streams.{dbstream_run};

use crate::figures::Figures;
use crate::run::told_after;
use model::DbSettings;

// The run of `session`, clustered so many times more; `numbers` gets 0 or the refusal's number of each insert.
// By `dbstream_session`, which promises demand 3 of its stream. The settings come one by one, as C passes them.
pub fn dbstream_run(
    dim: usize,
    r: f64,
    lambda: f64,
    alpha: f64,
    min_weight: f64,
    values: &[f64],
    lengths: &[usize],
    rounds: u64,
    numbers: &mut [u64],
) -> Figures
    ensures { told result numbers.new
        ≡ dbstream_run (record { dim = dim; r = r; lambda = lambda; alpha = alpha; min_weight = min_weight })
        (points_of lengths.now values.now) rounds numbers.old }
{
    let settings = DbSettings {
        dim,
        r,
        lambda,
        alpha,
        min_weight,
    };
    told_after(
        session::dbstream_session(settings, values, lengths, numbers),
        rounds,
    )
}
