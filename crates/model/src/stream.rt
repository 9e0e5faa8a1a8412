// What DBSTREAM and DenStream have in common: each is a stream of its kind.
ghost use Rattle.std.specs.Prelude.{◌≡◌, ◌≢◌, length};
ghost use Rattle.drift.specs.Monitor.{report_of};
ghost use Rattle.model.specs.Answers.{insertion_number};
ghost use Rattle.model.specs.Stream.{State, Kind, open_of, insert_of, cluster_of, finds_of, steps_of};
ghost use Rattle.model.specs.Told.{opened_told, inserted_told};

use crate::answers::{InsertError, OpenError};
use drift::DriftReport;

// The answer, and the stream. No Result with the stream in it: the document gives a stream back in each answer, beside a refusal one
// that was never opened. Opened, Inserted and the sessions' answers are types of their own: each is what one call gives back, and the
// contracts tell them apart.
#[derive(Clone, Copy)]
pub struct Opened<S> {
    pub answer: Result<(), OpenError>,
    pub stream: S,
}

// The answer, and the stream given back.
#[derive(Clone, Copy)]
pub struct Inserted<S> {
    pub answer: Result<(), InsertError>,
    pub stream: S,
}

// The finds that the labels took, the halving steps of all these, and the stream.
#[derive(Clone, Copy)]
pub struct Clustered<S> {
    pub finds: u64,
    pub steps: u64,
    pub stream: S,
}

// A stream of document 01, whatever it holds.
pub trait Stream {
    type Settings;

    // What the stream keeps of its settings, and what it holds.
    ghost Params: { Type 0 };

    ghost Holdings: { Type 0 };

    ghost kind: { Kind Self.Settings Self.Params Self.Holdings };

    ghost view: { Self → State Self.Params Self.Holdings };

    // The questions in order: the first no decides.
    fn open(settings: Self::Settings) -> Opened<Self>
        ensures { opened_told view result ≡ open_of kind settings };

    // A refused stream is the one that came.
    fn try_insert(self, x: &[f64]) -> Inserted<Self>
        ensures result_value { inserted_told view result ≡ insert_of kind (view self) x.now }
        ensures kept { insertion_number result.answer ≢ 0 → result.stream ≡ self };

    // Families: the labels, and the work that they took.
    fn cluster(self) -> Clustered<Self>
        ensures stream_value { view result.stream ≡ cluster_of kind (view self) }
        ensures finds { result.finds ≡ finds_of kind (view self) }
        ensures steps { result.steps ≡ steps_of kind (view self) };

    // How many micro-clusters are read out.
    fn micros_held(&self) -> usize
        ensures { result ≡ length (kind.bodies_of (view self.now).held) };

    // The label of each, or none where the stream was not clustered since.
    fn labels_told(&self) -> &[i64]
        ensures { result.now ≡ (view self.now).labels };

    // The drift monitor's report.
    fn drift_report(&self) -> DriftReport
        ensures { result ≡ report_of (view self.now).drift };
}
