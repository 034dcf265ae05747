// The weights program's text: a shift line, and nothing more.
ghost use Rattle.std.specs.Prelude.{◌≡◌};
ghost use Rattle.weights_report.specs.ShiftText.{shift_text};

use decimal::signed_value;
use rules::Refusal;
use text::{MAX_TEXT, line_at};

// The text read whole: the shift, in hundredths of sigma; or 17, then 16 at the first line that is not the one expected.
pub fn shift_text(text: &[u8]) -> Result<i32, Refusal>
    ensures { result ≡ shift_text text.now }
{
    if text.len() > MAX_TEXT {
        return Err(Refusal::TextSize);
    }
    let first = line_at(text, 0, b"shift", b"s").ok_or(Refusal::Line(1))?;
    if first.next < text.len() {
        return Err(Refusal::Line(2));
    }
    Ok(signed_value(first.values[0]))
}
