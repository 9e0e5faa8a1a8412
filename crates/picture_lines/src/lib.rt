// Families in words and as a picture, from the figures of their micro-clusters: beat error and amplitude against rate, a letter a family.
#![tactic(auto)]

mod plot;
mod row;
mod words;

ghost use Rattle.std.specs.Prelude.{min, length};
ghost use Rattle.model.specs.Limits.{micros_most};
ghost use Rattle.text.specs.Text.{Added};
ghost use Rattle.picture_lines.specs.Picture.{page_of};

use model::MICROS;
use picture_grid::Upward;
pub use row::CENTRES;
use row::rows_of;
use text::Text;

// The lines of the micro-clusters that have these labels, what the alarm did, and the two grids.
pub fn drawn(text: &mut Text, centres: &[f64], weights: &[f64], labels: &[i64], alarms: u64)
    ensures { Added text.old (page_of (min (length labels.now) micros_most) centres.now weights.now labels.now alarms) text.new }
{
    let n = labels.len().min(MICROS);
    if n == 0 {
        text.add(b"no reading is held\n");
        return words::add_alarm(text, alarms);
    }
    let all = rows_of(centres, weights, labels);
    let rows = &all[..n];
    words::add_words(text, rows, alarms);
    plot::add_grid(text, Upward::BeatError, rows);
    plot::add_grid(text, Upward::Amplitude, rows);
    text.add(b"a letter is a family, a dot is in none; a mark in the frame lies outside it\n");
}
