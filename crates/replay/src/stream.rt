// The operations on the current stream, of either kind.
use crate::answers;
use crate::drift_figures::Drift;
use crate::figures::{Doubles, Labels};
use crate::operation::StreamCall;
use drift::DriftMonitor;
use feature::MAX_DIM;
use model::{MICROS, MicroId, NotLive, ShapeError, Stream, TooShort};
use std::{fmt, io};

// The most coordinates of all centres together.
const CENTRES: usize = MICROS * MAX_DIM;

// What else the script asks of a stream, which each kind answers in its way.
pub trait Replayed: Stream + Copy {
    fn labels(&self, out: &mut [i64]) -> Result<(), TooShort>;

    fn predict(&self, x: &[f64]) -> Result<i64, ShapeError>;

    fn statistics(
        &self,
        centres: &mut [f64],
        weights: &mut [f64],
        radii: &mut [f64],
    ) -> Result<(), TooShort>;

    // None of a kind that has no links.
    fn connectivity(&self, a: MicroId, b: MicroId) -> Option<Result<f64, NotLive>>;

    fn coordinates(&self) -> usize;

    fn families(&self) -> usize;

    fn monitor(&self) -> &DriftMonitor;

    // The kind, the clock, and all that stands before the labels on operation 13's line.
    fn write_held<W: fmt::Write>(&self, f: &mut fmt::Formatter<W>) -> fmt::Result;
}

// The labels, into a slice of that length.
fn labels<S: Replayed>(rt: &impl Print, stream: &S, capacity: usize) -> io::Result<()> {
    let mut out = [0i64; MICROS];
    let n = capacity.min(MICROS);
    let answer = stream.labels(&mut out[..n]);
    let count = stream.labels_told().len().min(MICROS);
    answers::say_labels(rt, answer, &out[..count])
}

// Centres, weights and radii, into slices of these lengths.
fn statistics<S: Replayed>(
    rt: &impl Print,
    stream: &S,
    centres: usize,
    weights: usize,
    radii: usize,
) -> io::Result<()> {
    let mut cs = [0.0; CENTRES];
    let mut ws = [0.0; MICROS];
    let mut rs = [0.0; MICROS];
    let c = centres.min(CENTRES);
    let w = weights.min(MICROS);
    let r = radii.min(MICROS);
    let answer = stream.statistics(&mut cs[..c], &mut ws[..w], &mut rs[..r]);
    if let Err(error) = answer {
        return answers::say_refused(rt, error);
    }
    let n = stream.micros_held().min(MICROS);
    let dim = stream.coordinates().min(MAX_DIM);
    let coordinates = (n * dim).min(CENTRES);
    let centres = Doubles(&cs[..coordinates]);
    let weights = Doubles(&ws[..n]);
    let radii = Doubles(&rs[..n]);
    println!(rt; "stats {n} {dim}{centres}{weights}{radii}")
}

fn connectivity<S: Replayed>(
    rt: &impl Print,
    stream: &S,
    a: MicroId,
    b: MicroId,
) -> io::Result<()> {
    match stream.connectivity(a, b) {
        Some(answer) => answers::say_connectivity(rt, answer),
        None => println!(rt; "none"),
    }
}

// A call on a stream.
pub fn act<S: Replayed>(rt: &impl Print, stream: &mut S, call: StreamCall) -> io::Result<()> {
    match call {
        StreamCall::Insert(point) => {
            let inserted = (*stream).try_insert(point.as_slice());
            *stream = inserted.stream;
            answers::say_insertion(rt, inserted.answer)
        }
        StreamCall::Cluster => {
            let clustered = (*stream).cluster();
            *stream = clustered.stream;
            println!(rt; "ok {} {}", clustered.finds, clustered.steps)
        }
        StreamCall::Labels { capacity } => labels(rt, stream, capacity),
        StreamCall::Predict(point) => answers::say_prediction(rt, stream.predict(point.as_slice())),
        StreamCall::Statistics {
            centres,
            weights,
            radii,
        } => { statistics(rt, stream, centres, weights, radii) }
        StreamCall::Connectivity(a, b) => connectivity(rt, stream, a, b),
        StreamCall::Drift => answers::say_drift(rt, stream.drift_report()),
        StreamCall::Figures => println!(rt; "{}", Figures(stream)),
        StreamCall::Counts => {
            println!(rt;
                "counts {} {} {}",
                stream.coordinates(),
                stream.micros_held(),
                stream.families()
            )
        }
    }
}

// Every kept figure of a stream.
#[derive(Clone, Copy)]
struct Figures<'a, S>(&'a S);

impl<S: Replayed> fmt::Display for Figures<'_, S> {
    fn fmt<W: fmt::Write>(&self, f: &mut fmt::Formatter<W>) -> fmt::Result {
        let stream = self.0;
        stream.write_held(f)?;
        let labels = Labels(stream.labels_told());
        let drift = Drift(stream.monitor());
        write!(f, "{labels} {drift}")
    }
}
