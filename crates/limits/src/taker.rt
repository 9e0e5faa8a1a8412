// What is tried: a stream or a window that takes one value after another.
use model::Stream;
use std::io;

pub trait Taker: Copy {
    // Takes a value, and prints a line of the answer and of what is kept after it.
    fn take(&mut self, rt: &impl Print, x: f64) -> io::Result<()>;
}

// What has taken each of the values.
pub fn taken<T: Taker>(rt: &impl Print, from: T, values: &[f64]) -> io::Result<T> {
    let mut taker = from;
    for x in values {
        taker.take(rt, *x)?;
    }
    Ok(taker)
}

// Inserts a point of one coordinate: the answer's number.
pub fn insert<S: Stream + Copy>(stream: &mut S, x: f64) -> u64 {
    let inserted = (*stream).try_insert(&[x]);
    *stream = inserted.stream;
    model::number_of(inserted.answer)
}
