// Drives every public call from standard input and prints each answer on a line, so that the library can be compared,
// call by call, with the Rust and with any other implementation of document 01. docs/REPLAY.md has the records and the lines.
// The stored script, stdin, is seed 0 of the scripts db and den of tools/: document 01's readings to try and the open points. Its answers,
// stdout, are the oracle's: the Rust's where the Rust speaks, document 01's questions in front of it where not.
#![tactic(auto)]

mod answers;
mod db;
mod den;
mod drift_figures;
mod figures;
mod input;
mod operation;
mod stream;
mod window;

use adwin::Adwin;
use dbstream::DbStream;
use denstream::DenStream;
use input::{Malformed, next_operation};
use model::OpenError;
use operation::Operation;
use std::io;
use words::Output;

// The current stream: the one that the last accepted opening made.
#[derive(Clone, Copy)]
enum Current {
    Db(DbStream),
    Den(DenStream),
}

// An opening; a refused one leaves the current stream as it was.
fn open(
    rt: &impl Print,
    current: &mut Option<Current>,
    answer: Result<(), OpenError>,
    opened: Current,
) -> io::Result<()> {
    if answer.is_ok() {
        *current = Some(opened);
    }
    answers::say_opening(rt, answer)
}

// An operation on the current stream or the current window, or one that opens it.
fn act(
    rt: &impl Print,
    current: &mut Option<Current>,
    window: &mut Option<Adwin>,
    operation: Operation,
) -> io::Result<()> {
    match operation {
        Operation::OpenDb(settings) => {
            let opened = DbStream::new(settings);
            open(rt, current, opened.answer, Current::Db(opened.stream))
        }
        Operation::OpenDen(settings) => {
            let opened = DenStream::new(settings);
            open(rt, current, opened.answer, Current::Den(opened.stream))
        }
        Operation::OpenWindow { delta } => {
            *window = Some(Adwin::new(delta));
            println!(rt; "ok")
        }
        Operation::Stream(call) => match current {
            None => println!(rt; "none"),
            Some(Current::Db(stream)) => stream::act(rt, stream, call),
            Some(Current::Den(stream)) => stream::act(rt, stream, call),
        },
        Operation::Window(call) => match window {
            None => println!(rt; "none"),
            Some(window) => window::act(rt, window, call),
        },
    }
}

// The operations one after another, to the end of the input or to a record that is not well formed.
fn main() {
    let mut current = None;
    let mut window = None;
    // More records than any input has.
    for _ in 0..u64::MAX {
        match next_operation() {
            Ok(Some(operation)) => {
                let _said = act(&Output, &mut current, &mut window, operation);
            }
            Ok(None) => return,
            Err(Malformed) => {
                let _said = println!(Output; "bad");
                return;
            }
        }
    }
}
