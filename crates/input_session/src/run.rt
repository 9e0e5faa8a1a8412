// The input's points are taken, one after another.
ghost use Rattle.std.specs.Prelude.{◌≡◌, ◌*◌, ◌/◌, ◌≤◌, length};
ghost use Rattle.model.specs.Dbstream.{open_of};
ghost use Rattle.dbstream.specs.View.{view};
ghost use Rattle.input_session.specs.Input.{settings_in, points_from};
ghost use Rattle.input_session.specs.Refused.{run_number};
ghost use Rattle.input_session.specs.Session.{insert_all, ran, ran_of};

use crate::parse::{self, HEAD, WORD};
use crate::refusal::Refusal;
use dbstream::DbStream;
use model::{InsertError, OpenError};
use words::word_at;

// Every point, until one is refused. An opened stream has such a dim; it is asked here and in `point` alone, too little for a type.
fn insert_all(stream: &mut DbStream, points: &[u8], dim: usize) -> Result<(), InsertError>
    requires { (1 ≤ dim) × (dim ≤ 15) }
    ensures { record { answer = result; stream = view stream.new }
        ≡ insert_all (view stream.old) (points_from (length points.now / (dim * 8)) dim points.now 0) }
{
    for bytes in points.chunks_exact(dim * WORD) {
        let point = parse::point(bytes, dim);
        let inserted = stream.try_insert(&point[..dim]);
        *stream = inserted.stream;
        let answer = inserted.answer;
        answer?;
    }
    Ok(())
}

// Of a stream that the input's settings opened, with the opening's answer.
pub(crate) fn run(
    stream: &mut DbStream,
    opening: Result<(), OpenError>,
    input: &[u8],
) -> Result<(), Refusal>
    requires { record { answer = opening; stream = view stream.old } ≡ open_of (settings_in input.now) }
    ensures { ran (run_number result) (view stream.new) ≡ ran_of input.now }
{
    if !parse::is_whole(input) {
        return Err(Refusal::Input);
    }
    opening?;
    let dim = word_at(input, 0) as usize;
    insert_all(stream, &input[HEAD..], dim)?;
    Ok(())
}
