// A micro-cluster in a row of its own: its centre's figures, its weight and the mark of its family.
ghost use Rattle.std.specs.Prelude.{◌≡◌, ◌<◌, pos, slice_index_or, map};
ghost use Rattle.std.specs.Float.{nan};
ghost use Rattle.std.specs.List.{range_with_len};
ghost use Rattle.model.specs.Limits.{micros_most};
ghost use Rattle.picture_lines.specs.Row.{letter_of, mark_of, row_at};

use model::MICROS;

// The three figures of each centre.
pub const CENTRES: usize = 192;

// The mark of what is in no family.
pub(crate) const WEAK: u8 = b'.';

#[derive(Clone, Copy, Debug, Default, PartialEq)]
pub struct Row {
    pub rate: f64,
    pub amplitude: f64,
    pub beat_error: f64,
    pub weight: f64,
    pub mark: u8,
}

// A to Z, then a to z; the families past them share a sign.
pub(crate) fn letter(family: u64) -> u8
    ensures { result ≡ letter_of family }
{
    match family {
        0..26 => b'A' + family as u8,
        26..52 => b'a' + (family as u8 - 26),
        _ => b'#',
    }
}

// The letter of a family, or the mark of none.
fn mark(label: i64) -> u8
    ensures { result ≡ mark_of label }
{
    u64::try_from(label).map_or(WEAK, letter)
}

// The figure at a place, or what is no number.
fn figure(figures: &[f64], i: usize) -> f64
    ensures { result ≡ slice_index_or figures.now i nan }
{
    figures.get(i).copied().unwrap_or(f64::NAN)
}

// The row of the micro-cluster at a place. Three slices, as the read-outs fill them: a struct of three references, made for the two calls
// below `drawn`, would be no plainer.
fn row_at(centres: &[f64], weights: &[f64], labels: &[i64], i: usize) -> Row
    requires { i < micros_most }
    ensures { result ≡ row_at centres.now weights.now labels.now i }
{
    Row {
        rate: figure(centres, i * 3),
        amplitude: figure(centres, i * 3 + 1),
        beat_error: figure(centres, i * 3 + 2),
        weight: figure(weights, i),
        mark: mark(labels.get(i).copied().unwrap_or(0)),
    }
}

// A row for each place. A loop: through array::from_fn, whose contract forgets what the closure captured, the proof did not close.
pub(crate) fn rows_of(centres: &[f64], weights: &[f64], labels: &[i64]) -> [Row; MICROS]
    ensures { result ≡ map (row_at centres.now weights.now labels.now) (range_with_len 0 micros_most) }
{
    let mut rows = [Row::default(); MICROS];
    for i in 0..MICROS {
        rows[i] = row_at(centres, weights, labels, i);
    }
    rows
}
