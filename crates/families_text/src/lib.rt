// What `families` prints for the bytes of its input.
#![tactic(auto)]

ghost use Rattle.std.specs.Prelude.{◌≡◌, ◌≤◌, length, IfOk};
ghost use Rattle.dbstream.specs.View.{view};
ghost use Rattle.text.specs.Text.{text_of};
ghost use Rattle.text.specs.Lent.{write_told, write_of};
ghost use Rattle.families_text.specs.Families.{cluster_text, families_text};

use dbstream::DbStream;
use input_session::Session;
use model::Stream;
use text::{Text, TooShort};

// The stream, clustered, as text.
fn clustered_text(stream: DbStream) -> Text
    ensures { text_of result ≡ cluster_text (view stream) }
{
    let clustered = stream.cluster().stream;
    let n = clustered.micro_count();
    let ids = db_micro::ids_of(clustered.held());
    families_lines::listing(&ids[..n], clustered.labels_told(), clustered.drift())
}

// A refusal is all that is printed. picture_text begins likewise; what both share is in input_session and in text's `refused`.
fn text_of(input: &[u8]) -> Text
    ensures { text_of result ≡ families_text input.now }
{
    let Session { answer, stream } = input_session::session_of(input);
    if let Err(refusal) = answer {
        return text::refused(refusal.into());
    }
    clustered_text(stream)
}

// The text at the start of the output, if it has a place for all of it.
pub fn families(input: &[u8], output: &mut [u8]) -> Result<usize, TooShort>
    ensures told { write_told result output.new ≡ write_of (families_text input.now) output.old }
    ensures in_bounds { IfOk result (λ n. n ≤ length output.new) }
{
    text_of(input).write(output)
}
