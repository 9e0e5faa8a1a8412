// The session that an input's bytes hold: a stream is opened and takes the points.
#![tactic(auto)]

mod parse;
mod refusal;
mod run;

ghost use Rattle.std.specs.Prelude.{◌≡◌};
ghost use Rattle.input_session.specs.Session.{ran_of};
ghost use Rattle.input_session.specs.Told.{ran_told};

use dbstream::DbStream;
pub use refusal::Refusal;

// The first refusal, and the stream as far as it came. Not session's `Session<S>`: its refusals are others, and contracts tell them apart.
#[derive(Clone, Copy)]
pub struct Session {
    pub answer: Result<(), Refusal>,
    pub stream: DbStream,
}

// The input is asked about first, then the opening, then each insert; the first refusal ends the session.
pub fn session_of(input: &[u8]) -> Session
    ensures { ran_told result ≡ ran_of input.now }
{
    let opened = DbStream::new(parse::settings(input));
    let mut stream = opened.stream;
    let answer = run::run(&mut stream, opened.answer, input);
    Session { answer, stream }
}
