// A grid as text: a frame, the figures of its lines, and the marks in its cells.
ghost use Rattle.std.specs.Prelude.{◌≡◌, ◌<◌, ◌≤◌};
ghost use Rattle.text.specs.Text.{Added};
ghost use Rattle.picture_grid.specs.Grid.{framed, line_text, border_text, row_text, rows_text, hidden_text, grid_text};

use crate::figure::add_tenths;
use crate::upward::Upward;
use text::Text;

// The frame's right column and its top line, the lines between, and the cells of a line, the frame's included.
pub const RIGHT: usize = 62;

pub const TOP: usize = 20;

const LINES: usize = 19;

pub const WIDTH: usize = 63;

pub const CELLS: usize = 1323;

// The cells' marks, from the bottom up, and how many micro-clusters have no place.
#[derive(Clone, Copy)]
pub struct Plot {
    pub cells: [u8; CELLS],
    pub hidden: u64,
}

// A cell without a mark shows the frame.
fn framed(frame: u8, mark: u8) -> u8
    ensures { result ≡ framed frame mark }
{
    if mark == b' ' { frame } else { mark }
}

// A line of cells, marks over the frame. That the row is in the grid is asked of this and the next two functions, too little for a type;
// its cells as the parameter, in place of its number, would be asked for their length, and a row's figure needs the number too.
fn add_line(text: &mut Text, frame: &[u8; WIDTH], cells: &[u8; CELLS], row: usize)
    requires { row ≤ 20 }
    ensures { Added text.old (line_text frame.now cells.now row) text.new }
{
    for (frame, mark) in frame.iter().zip(&cells[row * WIDTH..]) {
        text.add_byte(framed(*frame, *mark));
    }
}

// The frame's top or bottom line.
fn add_border(text: &mut Text, cells: &[u8; CELLS], row: usize)
    requires { row ≤ 20 }
    ensures { Added text.old (border_text cells.now row) text.new }
{
    text.add(b"       ");
    add_line(
        text,
        b"+|--------------|--------------|--------------|--------------|+",
        cells,
        row,
    );
    text.add(b"\n");
}

// A line between them, with its figure.
fn add_row(text: &mut Text, up: Upward, cells: &[u8; CELLS], row: usize)
    requires { row < 19 }
    ensures { Added text.old (row_text up cells.now row) text.new }
{
    add_tenths(
        text,
        3,
        b' ',
        up.low() as u64 + row as u64 * up.step() as u64,
    );
    text.add(b" ");
    add_line(
        text,
        b"|                                                             |",
        cells,
        row + 1,
    );
    text.add(b"\n");
}

// From the top down.
fn add_rows(text: &mut Text, up: Upward, cells: &[u8; CELLS])
    ensures { Added text.old (rows_text up cells.now) text.new }
{
    for row in (0..LINES).rev() {
        add_row(text, up, cells, row);
    }
}

// How many have no place, if there are any.
fn add_hidden(text: &mut Text, hidden: u64)
    ensures { Added text.old (hidden_text hidden) text.new }
{
    if hidden == 0 {
        return;
    }
    text.add(b"not shown (nan): ");
    text.add_number(hidden);
    text.add(b"\n");
}

// The title, the frame with its marks, the axis below, and how many have no place.
pub fn add_plot(text: &mut Text, up: Upward, plot: &Plot)
    ensures { Added text.old (grid_text up plot.now) text.new }
{
    let cells = &plot.cells;
    text.add(up.title());
    add_border(text, cells, TOP);
    add_rows(text, up, cells);
    add_border(text, cells, 0);
    text.add(
        b"       -60            -30             0             +30            +60  rate (s/d)\n",
    );
    add_hidden(text, plot.hidden);
}
