// What a record asks for, with its operands.
use crate::input::Malformed;
use arrayvec::ArrayVec;
use model::{DbSettings, DenSettings, MicroId};
use words::double_of;

// The most operands of a record.
pub const OPERANDS: usize = 64;

// A point's coordinates, as many as the record had.
pub type Point = ArrayVec<f64, OPERANDS>;

fn point(operands: &[u64]) -> Point {
    let mut xs = Point::new();
    for word in operands {
        let _room = xs.try_push(double_of(*word));
    }
    xs
}

// On the current stream.
#[derive(Drop)]
pub enum StreamCall {
    Insert(Point),
    Cluster,
    Labels {
        capacity: usize,
    },
    Predict(Point),
    Statistics {
        centres: usize,
        weights: usize,
        radii: usize,
    },
    Connectivity(MicroId, MicroId),
    Drift,
    Figures,
    Counts,
}

// On the current window.
#[derive(Clone, Copy)]
pub enum WindowCall {
    Update(f64),
    Show,
}

#[derive(Drop)]
pub enum Operation {
    OpenDb(DbSettings),
    OpenDen(DenSettings),
    OpenWindow { delta: f64 },
    Stream(StreamCall),
    Window(WindowCall),
}

impl Operation {
    // The operation of this number, which needs just so many operands.
    pub fn new(number: u64, operands: &[u64]) -> Result<Self, Malformed> {
        let operation = match (number, operands) {
            (1, [dim, r, lambda, alpha, min_weight]) => Self::OpenDb(DbSettings {
                dim: *dim as usize,
                r: double_of(*r),
                lambda: double_of(*lambda),
                alpha: double_of(*alpha),
                min_weight: double_of(*min_weight),
            }),
            (2, [dim, eps, lambda, beta, mu]) => Self::OpenDen(DenSettings {
                dim: *dim as usize,
                eps: double_of(*eps),
                lambda: double_of(*lambda),
                beta: double_of(*beta),
                mu: double_of(*mu),
            }),
            (3, operands) => Self::Stream(StreamCall::Insert(point(operands))),
            (4, []) => Self::Stream(StreamCall::Cluster),
            (5, [capacity]) => Self::Stream(StreamCall::Labels {
                capacity: *capacity as usize,
            }),
            (6, operands) => Self::Stream(StreamCall::Predict(point(operands))),
            (7, [centres, weights, radii]) => Self::Stream(StreamCall::Statistics {
                centres: *centres as usize,
                weights: *weights as usize,
                radii: *radii as usize,
            }),
            (8, [a, b]) => Self::Stream(StreamCall::Connectivity(MicroId(*a), MicroId(*b))),
            (9, []) => Self::Stream(StreamCall::Drift),
            (10, [delta]) => Self::OpenWindow {
                delta: double_of(*delta),
            },
            (11, [value]) => Self::Window(WindowCall::Update(double_of(*value))),
            (12, []) => Self::Window(WindowCall::Show),
            (13, []) => Self::Stream(StreamCall::Figures),
            (14, []) => Self::Stream(StreamCall::Counts),
            _ => return Err(Malformed),
        };
        Ok(operation)
    }
}
