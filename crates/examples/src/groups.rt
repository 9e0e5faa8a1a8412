// "lambda 0.25, beta 0.5, mu 4, eps 1, points 0, 0, 0: one potential, label −1."
use denstream::DenStream;
use model::{DenSettings, MICROS};
use std::io;

// Prints how many potential ones there are, and whether the first has the label -1.
pub fn three_zeros(rt: &impl Print) -> io::Result<()> {
    let mut stream = DenStream::new(DenSettings {
        dim: 1,
        eps: 1.0,
        lambda: 0.25,
        beta: 0.5,
        mu: 4.0,
    })
    .stream;
    for _ in 0..3 {
        stream = stream.try_insert(&[0.0]).stream;
    }
    let clustered = stream.cluster().stream;
    let mut labels = [0; MICROS];
    let read = den_readout::labels(&clustered, &mut labels);
    let potential = clustered.potential_count();
    let label = if read.is_ok() && labels[0] == -1 {
        "label -1"
    } else {
        "another label"
    };
    println!(rt; "{potential} potential, {label}")
}
