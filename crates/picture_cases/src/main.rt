// Inputs at the edges of `picture`, each under a heading; the gate compares the text with the file stdout, which was worked out by hand.
#![tactic(auto)]

use std::io::{Error, ErrorKind, Read, Result};
use text::Text;
use words::Output;

// A reader whose every read fails.
#[derive(Drop)]
struct Broken;

impl Read for Broken {
    fn read(&mut self, _buf: &mut [u8]) -> Result<usize> {
        Err(Error::from(ErrorKind::Other))
    }
}

// What `picture` prints for an input, under its heading. As in `families_cases`, but for the function and its room, which are most of it.
fn show(heading: &str, input: &[u8]) {
    let mut output = [0u8; text::ROOM];
    let _headed = println!(Output; "{heading}:");
    if let Ok(n) = picture_text::picture(input, &mut output) {
        let _written = Output.write_all(&output[..n]);
    }
}

// Where a read fails there is no input.
fn failing() {
    let mut room = [1u8; input::ROOM];
    let n = input::read(&mut Broken, &mut room).unwrap_or(0);
    show("a read that fails", &room[..n]);
}

// What is no number has one form. sample_session has its own, which writes 0 there and has a contract.
fn add_double(input: &mut Text, x: f64) {
    let bits = if x.is_nan() {
        0x7ff8_0000_0000_0000
    } else {
        x.to_bits()
    };
    input.add(&bits.to_le_bytes());
}

// The input of settings, with lambda 2^-10 and alpha 0.5, and of readings: rate, amplitude and beat error.
fn session(heading: &str, dim: u64, r: f64, min_weight: f64, readings: &[[f64; 3]]) {
    let mut input = Text::new();
    input.add(&dim.to_le_bytes());
    add_double(&mut input, r);
    add_double(&mut input, 0.0009765625);
    add_double(&mut input, 0.5);
    add_double(&mut input, min_weight);
    for reading in readings {
        for figure in reading {
            add_double(&mut input, *figure);
        }
    }
    let mut room = [0u8; text::ROOM];
    if let Ok(n) = input.write(&mut room) {
        show(heading, &room[..n]);
    }
}

fn main() {
    show("no input", b"");
    failing();
    session("r 0", 3, 0.0, 1.0, &[]);
    session("dim 1", 1, 1.0, 1.0, &[]);
    session("no reading", 3, 1.0, 1.0, &[]);
    // The rate of the second is 2^1000.
    session(
        "no numbers and large ones",
        3,
        1.0,
        0.5,
        &[
            [f64::NAN, 300.0, -5.0],
            [1.0715086071862673e301, -1.0, f64::INFINITY],
            [-200.0, 123456.0, 99.0],
            [0.0, 0.0, 0.0],
        ],
    );
    // In the corners, twice each, and outside them.
    session(
        "edges",
        3,
        0.5,
        1.5,
        &[
            [-60.0, 150.0, 0.0],
            [-60.0, 150.0, 0.0],
            [60.0, 330.0, 36.0],
            [60.0, 330.0, 36.0],
            [-61.5, 144.0, -1.5],
            [62.0, 336.0, 38.0],
            [0.0, 340.0, 10.0],
            [61.0, 330.0, 36.0],
            [60.75, 331.0, 36.0],
            [0.0, f64::NAN, 2.0],
        ],
    );
}
