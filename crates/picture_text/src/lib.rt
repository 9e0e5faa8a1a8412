// What `picture` prints for the bytes of its input: the families in words and as a picture.
#![tactic(auto)]

ghost use Rattle.std.specs.Prelude.{◌≡◌, ◌≤◌, length, take, IfOk};
ghost use Rattle.dbstream.specs.View.{view};
ghost use Rattle.text.specs.Text.{room, text_of};
ghost use Rattle.text.specs.Lent.{write_told, write_of};
ghost use Rattle.picture_text.specs.Picture.{drawn_of, picture_text};

use dbstream::DbStream;
use input_session::Session;
use model::{MICROS, Stream};
use picture_lines::CENTRES;
use text::{Text, TooShort};

// The figures of a reading: rate, amplitude and beat error.
const FIGURES: usize = 3;

// The stream, clustered, in words and as a picture.
fn drawn(stream: DbStream) -> Text
    ensures { text_of result ≡ take room (drawn_of (view stream)) }
{
    let clustered = stream.cluster().stream;
    let mut centres = [0.0; CENTRES];
    let mut weights = [0.0; MICROS];
    let mut radii = [0.0; MICROS];
    // Not refused: there is a place for all that a stream holds.
    let _stats = db_readout::micro_stats(&clustered, &mut centres, &mut weights, &mut radii);
    let labels = clustered.labels_told();
    let mut text = Text::new();
    picture_lines::drawn(
        &mut text,
        &centres,
        &weights,
        labels,
        clustered.drift().alarms,
    );
    text
}

// A refusal is all that is printed; so is that another dim has no picture. families_text begins likewise; what both share is in
// input_session and in text's `refused`.
fn text_of(input: &[u8]) -> Text
    ensures { text_of result ≡ picture_text input.now }
{
    let Session { answer, stream } = input_session::session_of(input);
    if let Err(refusal) = answer {
        return text::refused(refusal.into());
    }
    if stream.dim() != FIGURES {
        let mut text = Text::new();
        text.add(b"a picture needs dim 3\n");
        return text;
    }
    drawn(stream)
}

// The text at the start of the output, if it has a place for all of it.
pub fn picture(input: &[u8], output: &mut [u8]) -> Result<usize, TooShort>
    ensures told { write_told result output.new ≡ write_of (picture_text input.now) output.old }
    ensures in_bounds { IfOk result (λ n. n ≤ length output.new) }
{
    text_of(input).write(output)
}
