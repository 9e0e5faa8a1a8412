// The bytes of an input: five words of settings, then the points, each of dim words.
ghost use Rattle.std.specs.Prelude.{◌≡◌, ◌*◌, ◌≤◌, ◌%◌, eqb, cond, true, length, take};
ghost use Rattle.model.specs.Questions.{dim_in_range};
ghost use Rattle.input_session.specs.Input.{double_at, doubles_from, settings_in, is_whole};

use feature::MAX_DIM;
use model::DbSettings;
use words::{double_of, word_at};

// The most bytes of an input, those of its settings, and those of a word.
const INPUT: usize = 65536;

pub(crate) const HEAD: usize = 40;

pub(crate) const WORD: usize = 8;

// Whether so many bytes are whole points, if dim is in range.
fn are_whole(points: usize, dim: usize) -> bool
    ensures { result ≡ cond (dim_in_range dim) (eqb (points % (dim * 8)) 0) true }
{
    !model::dim_in_range(dim) || points.is_multiple_of(dim * WORD)
}

// Whether the length fits: the settings and whole points, and not too many.
pub(crate) fn is_whole(bytes: &[u8]) -> bool
    ensures { result ≡ is_whole bytes.now }
{
    let n = bytes.len();
    (HEAD..=INPUT).contains(&n)
        && n.is_multiple_of(WORD)
        && are_whole(n - HEAD, word_at(bytes, 0) as usize)
}

// The double in the eight bytes from a place on.
fn double_at(bytes: &[u8], at: usize) -> f64
    ensures { result ≡ double_at bytes.now at }
{
    double_of(word_at(bytes, at))
}

pub(crate) fn settings(bytes: &[u8]) -> DbSettings
    ensures { result ≡ settings_in bytes.now }
{
    DbSettings {
        dim: word_at(bytes, 0) as usize,
        r: double_at(bytes, 8),
        lambda: double_at(bytes, 16),
        alpha: double_at(bytes, 24),
        min_weight: double_at(bytes, 32),
    }
}

// A point in its bytes, in the first dim elements. The bound is asked here and in run.rt's `insert_all` alone, too little for a type.
pub(crate) fn point(bytes: &[u8], dim: usize) -> [f64; MAX_DIM]
    requires { (dim ≤ 15) × (dim * 8 ≤ length bytes.now) }
    ensures { take dim result ≡ doubles_from dim bytes.now 0 }
{
    let mut x = [0.0; MAX_DIM];
    // Over places: of what a zip of `iter_mut()` with the words writes std says nothing, so the goal at the return stayed open.
    for i in 0..dim {
        x[i] = double_at(bytes, i * WORD);
    }
    x
}
