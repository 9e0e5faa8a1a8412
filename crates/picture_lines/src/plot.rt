// Where a micro-cluster stands in a grid; what lies outside stands in the frame.
ghost use Rattle.std.specs.Prelude.{◌≡◌, ◌+◌, ◌≤◌, ◌<◌, length};
ghost use Rattle.model.specs.Limits.{micros_most};
ghost use Rattle.text.specs.Text.{Added};
ghost use Rattle.picture_grid.specs.Grid.{grid_text};
ghost use Rattle.picture_lines.specs.Row.{row_in};
ghost use Rattle.picture_lines.specs.Plot.{upward_of, cell_of, place_of, is_hidden, over_of, marked, plot_of};

use crate::row::{Row, WEAK};
use picture_grid::{CELLS, Plot, RIGHT, TOP, Upward, WIDTH};
use text::Text;

// The first cell is the frame's, the second has the figure low; the last is the frame's again.
fn cell(low: f64, step: f64, last: usize, x: f64) -> usize
    ensures { result ≡ cell_of low step last x }
{
    (picture_grid::rounded((x - low) / step + 1.0) as usize).min(last)
}

// Where a row stands in the grid that shows a figure upwards.
impl Row {
    // In tenths.
    fn upward(&self, up: Upward) -> f64
        ensures { result ≡ upward_of up self.now }
    {
        match up {
            Upward::BeatError => self.beat_error,
            Upward::Amplitude => self.amplitude * 10.0,
        }
    }

    // A column is 2 s/d from -60 on.
    fn place(&self, up: Upward) -> usize
        ensures value { result ≡ place_of up self.now }
        ensures upper_bound { result < 1323 }
    {
        let line = cell(up.low() as f64, up.step() as f64, TOP, self.upward(up));
        let column = cell(-60.0, 2.0, RIGHT, self.rate);
        line * WIDTH + column
    }

    // What is no number has no place.
    fn is_hidden(&self, up: Upward) -> bool
        ensures { result ≡ is_hidden up self.now }
    {
        self.rate.is_nan() || self.upward(up).is_nan()
    }
}

// What stands in a cell where a mark comes: a dot covers nothing.
fn over(old: u8, mark: u8) -> u8
    ensures { result ≡ over_of old mark }
{
    if mark == WEAK && old != b' ' {
        old
    } else {
        mark
    }
}

// A mark in its cell, or one more without a place. The bound, asked here alone, is that one more can be counted.
fn add_mark(plot: &mut Plot, up: Upward, row: &Row)
    requires { plot.old.hidden ≤ micros_most }
    ensures value { plot.new ≡ marked up plot.old row.now }
    ensures hidden_bound { plot.new.hidden ≤ plot.old.hidden + 1 }
{
    if row.is_hidden(up) {
        plot.hidden += 1;
        return;
    }
    let at = row.place(up);
    plot.cells[at] = over(plot.cells[at], row.mark);
}

// Every row, in list order.
fn plotted(up: Upward, rows: &[Row]) -> Plot
    requires { length rows.now ≤ micros_most }
    ensures { result ≡ plot_of up (row_in rows.now) (length rows.now) }
{
    let mut plot = Plot {
        cells: [b' '; CELLS],
        hidden: 0,
    };
    for row in rows {
        add_mark(&mut plot, up, row);
    }
    plot
}

// The grid of the rows.
pub(crate) fn add_grid(text: &mut Text, up: Upward, rows: &[Row])
    requires { length rows.now ≤ micros_most }
    ensures { Added text.old (grid_text up (plot_of up (row_in rows.now) (length rows.now))) text.new }
{
    picture_grid::add_plot(text, up, &plotted(up, rows));
}
