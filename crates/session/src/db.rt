// A whole run of a DBSTREAM.
ghost use Rattle.std.specs.Prelude.{◌≡◌, Ok};
ghost use Rattle.model.specs.Dbstream.{open_of, insert_of, cluster_of};
ghost use Rattle.dbstream.specs.View.{view};
ghost use Rattle.session.specs.Points.{points_of};
ghost use Rattle.session.specs.Whole.{session_of};
ghost use Rattle.session.specs.Told.{told};
ghost use Rattle.session.specs.DbTold.{RunTold};

use crate::whole::{Session, whole_run};
use dbstream::DbStream;
use model::DbSettings;

// The run of any stream, with what demand 3 says of DBSTREAM's kind: its claims are no other's, so the promise stands here.
pub fn dbstream_session(
    settings: DbSettings,
    values: &[f64],
    lengths: &[usize],
    numbers: &mut [u64],
) -> Session<DbStream>
    ensures numbers_after { told view result numbers.new
        ≡ session_of insert_of cluster_of (open_of settings) (points_of lengths.now values.now) numbers.old }
    ensures demand { result.answer ≡ Ok tt → RunTold settings (points_of lengths.now values.now) (view result.stream) }
{
    whole_run(settings, values, lengths, numbers)
}
