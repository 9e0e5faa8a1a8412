// A whole run of a DenStream.
ghost use Rattle.std.specs.Prelude.{◌≡◌, Ok};
ghost use Rattle.model.specs.Denstream.{open_of, insert_of, cluster_of};
ghost use Rattle.denstream.specs.View.{view};
ghost use Rattle.session.specs.Points.{points_of};
ghost use Rattle.session.specs.Whole.{session_of};
ghost use Rattle.session.specs.Told.{told};
ghost use Rattle.session.specs.DenTold.{RunTold};

use crate::whole::{Session, whole_run};
use denstream::DenStream;
use model::DenSettings;

// The run of any stream, with what demand 3 says of DenStream's kind: its claims are no other's, so the promise stands here.
pub fn denstream_session(
    settings: DenSettings,
    values: &[f64],
    lengths: &[usize],
    numbers: &mut [u64],
) -> Session<DenStream>
    ensures numbers_after { told view result numbers.new
        ≡ session_of insert_of cluster_of (open_of settings) (points_of lengths.now values.now) numbers.old }
    ensures demand { result.answer ≡ Ok tt → RunTold settings (points_of lengths.now values.now) (view result.stream) }
{
    whole_run(settings, values, lengths, numbers)
}
