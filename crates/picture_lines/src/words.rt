// Families in words.
ghost use Rattle.std.specs.Prelude.{length};
ghost use Rattle.text.specs.Text.{Added, each};
ghost use Rattle.picture_lines.specs.Row.{letter_of, row_in};
ghost use Rattle.picture_lines.specs.Words.{heading_of, line_of, line_in, lines_in, alarm_of, words_of};

use crate::row::{Row, WEAK, letter};
use picture_grid::add_figure;
use text::Text;

// One more than the letters that there are: the last is the sign that other families share.
const LETTERS: u64 = 53;

// The family that a mark tells.
fn add_heading(text: &mut Text, mark: u8)
    ensures { Added text.old (heading_of mark) text.new }
{
    if mark == WEAK {
        return text.add(b"no family");
    }
    text.add(b"family ");
    text.add_byte(mark);
    text.add(b" ");
}

// The family and figures of a micro-cluster.
fn add_line(text: &mut Text, row: &Row)
    ensures { Added text.old (line_of row.now) text.new }
{
    add_heading(text, row.mark);
    text.add(b"  rate ");
    add_figure(text, 3, b'+', row.rate * 10.0);
    text.add(b" s/d   amplitude ");
    add_figure(text, 3, b' ', row.amplitude * 10.0);
    text.add(b" deg   beat error ");
    add_figure(text, 1, b' ', row.beat_error);
    text.add(b" ms   weight ");
    add_figure(text, 3, b' ', row.weight * 10.0);
    text.add(b"\n");
}

// The line of a micro-cluster, if it has this mark.
fn add_line_in(text: &mut Text, row: &Row, mark: u8)
    ensures { Added text.old (line_in mark row.now) text.new }
{
    if row.mark == mark {
        add_line(text, row);
    }
}

// The lines of the micro-clusters that have this mark.
fn add_lines_in(text: &mut Text, rows: &[Row], mark: u8)
    ensures { Added text.old (lines_in (row_in rows.now) (length rows.now) mark) text.new }
{
    for row in rows {
        add_line_in(text, row, mark);
    }
}

// Family by family.
fn add_families(text: &mut Text, rows: &[Row])
    ensures { Added text.old (each (λ k. lines_in (row_in rows.now) (length rows.now) (letter_of k)) 53) text.new }
{
    for family in 0..LETTERS {
        add_lines_in(text, rows, letter(family));
    }
}

// What the alarm did.
pub(crate) fn add_alarm(text: &mut Text, alarms: u64)
    ensures { Added text.old (alarm_of alarms) text.new }
{
    if alarms == 0 {
        return text.add(b"the drift alarm did not ring\n");
    }
    text.add(b"the drift alarm rang ");
    text.add_number(alarms);
    if alarms == 1 {
        return text.add(b" time\n");
    }
    text.add(b" times\n");
}

// The families, what is in none, and what the alarm did.
pub(crate) fn add_words(text: &mut Text, rows: &[Row], alarms: u64)
    ensures { Added text.old (words_of (row_in rows.now) (length rows.now) alarms) text.new }
{
    add_families(text, rows);
    add_lines_in(text, rows, WEAK);
    add_alarm(text, alarms);
}
