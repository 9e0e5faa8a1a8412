// The whole runs of the crate whole_runs for a program in C or Rust, each under its own name. A slice crosses as its pointer and its length.
#![tactic(auto)]

ghost use Rattle.std.specs.Prelude.{◌≡◌};
ghost use Rattle.session.specs.Points.{points_of};
ghost use Rattle.whole_runs.specs.Told.{told};
ghost use Rattle.whole_runs.specs.Streams.{dbstream_run, denstream_run};
ghost use Rattle.whole_runs.specs.Window.{window_run};

use whole_runs::{Figures, WindowFigures};

// A fresh window, and an update by each value in order.
#[unsafe(no_mangle)]
pub extern "C" fn window_run(delta: f64, values: &[f64]) -> WindowFigures
    ensures { result ≡ window_run delta values.now }
{
    whole_runs::window_run(delta, values)
}

// The run of `session`, clustered so many times more; `numbers` gets 0 or the refusal's number of each insert.
#[unsafe(no_mangle)]
pub extern "C" fn dbstream_run(
    dim: usize,
    r: f64,
    lambda: f64,
    alpha: f64,
    min_weight: f64,
    values: &[f64],
    lengths: &[usize],
    rounds: u64,
    numbers: &mut [u64],
) -> Figures
    ensures { told result numbers.new
        ≡ dbstream_run (record { dim = dim; r = r; lambda = lambda; alpha = alpha; min_weight = min_weight })
        (points_of lengths.now values.now) rounds numbers.old }
{
    whole_runs::dbstream_run(
        dim, r, lambda, alpha, min_weight, values, lengths, rounds, numbers,
    )
}

// The run of `session`, clustered so many times more; `numbers` gets 0 or the refusal's number of each insert.
#[unsafe(no_mangle)]
pub extern "C" fn denstream_run(
    dim: usize,
    eps: f64,
    lambda: f64,
    beta: f64,
    mu: f64,
    values: &[f64],
    lengths: &[usize],
    rounds: u64,
    numbers: &mut [u64],
) -> Figures
    ensures { told result numbers.new
        ≡ denstream_run (record { dim = dim; eps = eps; lambda = lambda; beta = beta; mu = mu })
        (points_of lengths.now values.now) rounds numbers.old }
{
    whole_runs::denstream_run(dim, eps, lambda, beta, mu, values, lengths, rounds, numbers)
}
