// The line of a refusal.
ghost use Rattle.std.specs.Prelude.{◌≡◌};
ghost use Rattle.text.specs.Text.{text_of};
ghost use Rattle.text.specs.Refusal.{refused_line};

use crate::text::Text;

// Document 01: the line `refused`, a space and the number.
pub fn refused(number: u64) -> Text
    ensures { text_of result ≡ refused_line number }
{
    let mut line = Text::new();
    line.add(b"refused ");
    line.add_number(number);
    line.add(b"\n");
    line
}
