// What a whole run of any stream tells in plain numbers.
ghost use Rattle.std.specs.Prelude.{◌≡◌};
ghost use Rattle.model.specs.Stream.{cluster_of};
ghost use Rattle.session.specs.Refused.{run_number};
ghost use Rattle.whole_runs.specs.Told.{iterate, figures_in};

use crate::figures::Figures;
use model::Stream;
use session::Session;

// Clustered so many times more.
fn clustered<S: Stream>(stream: S, rounds: u64) -> S
    ensures { S.view result ≡ iterate (cluster_of S.kind) rounds (S.view stream) }
{
    let mut last = stream;
    for _round in 0..rounds {
        last = last.cluster().stream;
    }
    last
}

// What the stream says of itself, beside the run's number: a number, since C reads it.
fn figures_of<S: Stream>(number: u64, stream: &S) -> Figures
    ensures { result ≡ figures_in S.kind number (S.view stream.now) }
{
    let report = stream.drift_report();
    Figures {
        number,
        micros: stream.micros_held(),
        families: readout::n_clusters(stream.labels_told()),
        alarms: report.alarms,
        distance: report.distance,
        window: report.window,
    }
}

// The figures of a run of `session`, its stream clustered so many times more.
pub(crate) fn told_after<S: Stream + Drop>(run: Session<S>, rounds: u64) -> Figures
    ensures { result ≡ figures_in S.kind (run_number run.answer) (iterate (cluster_of S.kind) rounds (S.view run.stream)) }
{
    let number = model::number_of(run.answer);
    let last = clustered(run.stream, rounds);
    figures_of(number, &last)
}
