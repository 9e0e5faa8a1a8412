// A whole run of any stream.
ghost use Rattle.std.specs.Prelude.{◌≡◌, ◌++◌, map, ◌≤◌, length, drop};
ghost use Rattle.model.specs.Answers.{insertion_number};
ghost use Rattle.model.specs.Run.{run_of, answers_of};
ghost use Rattle.model.specs.Stream.{open_of, insert_of, cluster_of};
ghost use Rattle.session.specs.Points.{points_of};
ghost use Rattle.session.specs.Refused.{run_asked};
ghost use Rattle.session.specs.Whole.{session_of};
ghost use Rattle.session.specs.Told.{told};

use crate::refusal::Refusal;
use model::{Inserted, OpenError, Opened, Stream, TooShort};

// Whether the run was refused, and the stream. A type of its own beside model's `Opened` and `Inserted`: contracts tell them apart.
#[derive(Clone, Copy)]
pub struct Session<S> {
    pub answer: Result<(), Refusal>,
    pub stream: S,
}

// The opening first, then whether the lent slice has a place for each insert's number.
fn asked(opening: Result<(), OpenError>, due: usize, places: usize) -> Result<(), Refusal>
    ensures { result ≡ run_asked opening due places }
{
    opening?;
    if places < due {
        return Err(Refusal::TooShort(TooShort));
    }
    Ok(())
}

// Every insert in order; each gets the stream that the one before it gave back, refused or not.
// Three arrays of the caller's, as the exported function takes them: the values one after another, the length of each insert, and a place
// for its number, document 01's lent slice. Numbers and no answers, since C reads them: 0, or the refusal's.
fn inserts<S: Stream>(stream: S, values: &[f64], lengths: &[usize], numbers: &mut [u64]) -> S
    requires { length lengths.now ≤ length numbers.old }
    ensures result_value { S.view result ≡ run_of (insert_of S.kind) (S.view stream) (points_of lengths.now values.now) }
    ensures numbers_after { numbers.new
        ≡ map insertion_number (answers_of (insert_of S.kind) (S.view stream) (points_of lengths.now values.now))
        ++ drop (length lengths.now) numbers.old }
{
    let mut s = stream;
    let mut rest = values;
    for (i, length) in lengths.iter().enumerate() {
        let (point, behind) = rest.split_at((*length).min(rest.len()));
        let Inserted { answer, stream } = s.try_insert(point);
        s = stream;
        numbers[i] = model::number_of(answer);
        rest = behind;
    }
    s
}

// Opens, inserts and clusters; `numbers` gets 0 or the refusal's number of each insert.
pub fn whole_run<S: Stream>(
    settings: S::Settings,
    values: &[f64],
    lengths: &[usize],
    numbers: &mut [u64],
) -> Session<S>
    ensures { told S.view result numbers.new
        ≡ session_of (insert_of S.kind) (cluster_of S.kind) (open_of S.kind settings) (points_of lengths.now values.now) numbers.old }
{
    let Opened {
        answer: opening,
        stream,
    } = S::open(settings);
    if let Err(refusal) = asked(opening, lengths.len(), numbers.len()) {
        return Session {
            answer: Err(refusal),
            stream,
        };
    }
    let run = inserts(stream, values, lengths, numbers);
    Session {
        answer: Ok(()),
        stream: run.cluster().stream,
    }
}
