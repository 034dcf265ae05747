// What the weights program prints for a text.
ghost use Rattle.std.specs.Prelude.{◌≡◌};
ghost use Rattle.write.specs.Printed.{report, report_of, printed_bytes, OutputIs};
ghost use Rattle.weights_report.specs.WeightsReport.{text_weights, weights_printed};

use crate::WEIGHTS_SIZE;
use crate::shifts::shift_text;
use rules::{Refusal, ZoneWeights};
use write::put_answer;

// The weights of the shift that a text gives, or the first refusal: 17; 16; 18.
fn text_weights(text: &[u8]) -> Result<ZoneWeights, Refusal>
    ensures { result ≡ text_weights text.now }
{
    shift::shift_weights(shift_text(text)?)
}

// The weights program's line for a text, in the lent buffer; or the refusal, with the buffer as it was: 17; 16; 18.
pub fn weights_report(text: &[u8], out: &mut [u8; WEIGHTS_SIZE]) -> Result<usize, Refusal>
    ensures { report result out.new ≡ report_of (weights_printed text.now) out.old }
{
    let weights = text_weights(text)?;
    Ok(crate::put_weights(out, 0, weights))
}

// The weights program's output, from the buffer's start; what is behind it is kept.
pub fn weights_output(text: &[u8], out: &mut [u8; WEIGHTS_SIZE]) -> usize
    ensures { OutputIs out.old out.new result (printed_bytes (weights_printed text.now)) }
{
    let answer = weights_report(text, out);
    put_answer(out, answer)
}
