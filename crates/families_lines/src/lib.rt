// The lines that `families` prints.
#![tactic(auto)]

ghost use Rattle.std.specs.Prelude.{◌≡◌, ◌*◌, ◌≤◌, ◌++◌, length, take};
ghost use Rattle.model.specs.Limits.{micros_most};
ghost use Rattle.text.specs.Text.{room, text_of, Added, Within};
ghost use Rattle.families_lines.specs.Lines.{line_of, lines_of, last_line};

use drift::DriftReport;
use model::MicroId;
use text::Text;

// Creation number and label.
fn add_line(text: &mut Text, id: MicroId, label: i64)
    ensures added { Added text.old (line_of id label) text.new }
    ensures within { Within (line_of id label) 43 }
{
    text.add_number(id.0);
    text.add_byte(b' ');
    text.add_integer(label);
    text.add_byte(b'\n');
}

// A line for each creation number with its label.
fn add_lines(text: &mut Text, ids: &[MicroId], labels: &[i64])
    ensures added { Added text.old (lines_of ids.now labels.now) text.new }
    ensures within { Within (lines_of ids.now labels.now) (43 * length ids.now) }
{
    for (id, label) in ids.iter().zip(labels) {
        add_line(text, *id, *label);
    }
}

// Alarms and width.
fn add_last(text: &mut Text, report: DriftReport)
    ensures added { Added text.old (last_line report) text.new }
    ensures within { Within (last_line report) 56 }
{
    text.add(b"alarms ");
    text.add_number(report.alarms);
    text.add(b" window ");
    text.add_number(report.window as u64);
    text.add(b"\n");
}

// A line for each creation number with its label, and the last line; none is cut off of as many as a stream holds.
pub fn listing(ids: &[MicroId], labels: &[i64], report: DriftReport) -> Text
    ensures cut { text_of result ≡ take room (lines_of ids.now labels.now ++ last_line report) }
    ensures whole { length ids.now ≤ micros_most
        → text_of result ≡ lines_of ids.now labels.now ++ last_line report }
{
    let mut text = Text::new();
    add_lines(&mut text, ids, labels);
    add_last(&mut text, report);
    text
}
