// A figure as text, in tenths: rounded, with its sign.
ghost use Rattle.std.specs.Prelude.{◌≡◌};
ghost use Rattle.text.specs.Text.{Added};
ghost use Rattle.picture_grid.specs.Figure.{rounded_of, tenths, sized, figure_of};

use text::Text;

// To the nearest whole number from 0 to 99,999; a NaN gives 0.
pub fn rounded(x: f64) -> u64
    ensures { result ≡ rounded_of x }
{
    std::num::saturating_f64_to_u64(x + 0.5).min(99_999)
}

// A number of tenths, with a sign.
pub(crate) fn add_tenths(text: &mut Text, width: usize, sign: u8, n: u64)
    ensures { Added text.old (tenths width sign n) text.new }
{
    text.add_right(width, sign, n / 10);
    text.add(b".");
    text.add_number(n % 10);
}

// A size with its sign; one that has no room is told by another sign in front.
fn add_sized(text: &mut Text, width: usize, sign: u8, beyond: u8, size: f64)
    ensures { Added text.old (sized width sign beyond size) text.new }
{
    if size + 0.5 < 100000.0 {
        return add_tenths(text, width, sign, rounded(size));
    }
    text.add_byte(beyond);
    add_tenths(text, width, sign, rounded(size));
}

// A figure in tenths; what is no number is told so.
pub fn add_figure(text: &mut Text, width: usize, plus: u8, x: f64)
    ensures { Added text.old (figure_of width plus x) text.new }
{
    if x.is_nan() {
        text.add_blanks(width);
        return text.add(b"nan");
    }
    if x < 0.0 {
        return add_sized(text, width, b'-', b'<', -x);
    }
    add_sized(text, width, plus, b'>', x);
}
