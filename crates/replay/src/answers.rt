// The lines of the answers that both streams give.
use crate::figures::{Labels, OrDash};
use drift::DriftReport;
use model::{InsertError, NotLive, OpenError, ShapeError, TooShort};
use std::io;
use words::Bits;

// A refusal's number, as it is printed.
pub fn say_refused(rt: &impl Print, error: impl Into<u64>) -> io::Result<()> {
    let number: u64 = error.into();
    println!(rt; "refused {number}")
}

fn say_shape(rt: &impl Print, error: ShapeError) -> io::Result<()> {
    println!(rt;
        "refused {} {} {}",
        u64::from(error),
        error.expected,
        error.got
    )
}

// Operations 1 and 2.
pub fn say_opening(rt: &impl Print, answer: Result<(), OpenError>) -> io::Result<()> {
    match answer {
        Ok(()) => println!(rt; "ok"),
        Err(error) => say_refused(rt, error),
    }
}

// Operation 3.
pub fn say_insertion(rt: &impl Print, answer: Result<(), InsertError>) -> io::Result<()> {
    match answer {
        Ok(()) => println!(rt; "ok"),
        Err(InsertError::Shape(error)) => say_shape(rt, error),
        Err(error) => say_refused(rt, error),
    }
}

// Operation 5: the labels that were written.
pub fn say_labels(rt: &impl Print, answer: Result<(), TooShort>, labels: &[i64]) -> io::Result<()> {
    match answer {
        Ok(()) => println!(rt; "labels{}", Labels(labels)),
        Err(error) => say_refused(rt, error),
    }
}

// Operation 6.
pub fn say_prediction(rt: &impl Print, answer: Result<i64, ShapeError>) -> io::Result<()> {
    match answer {
        Ok(label) => println!(rt; "label {label}"),
        Err(error) => say_shape(rt, error),
    }
}

// Operation 8.
pub fn say_connectivity(rt: &impl Print, answer: Result<f64, NotLive>) -> io::Result<()> {
    match answer {
        Ok(density) => println!(rt; "connectivity {}", Bits(density)),
        Err(error) => say_refused(rt, error),
    }
}

// Operation 9.
pub fn say_drift(rt: &impl Print, report: DriftReport) -> io::Result<()> {
    let alarms = report.alarms;
    let last = OrDash(report.last_alarm.map(Bits));
    let mean = Bits(report.distance);
    let width = report.window;
    println!(rt; "drift {alarms} {last} {mean} {width}")
}
