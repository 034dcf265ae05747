// The weights of a shifted core for callers in C and Rust.
ghost use Rattle.capi.specs.ShiftCall.{ShiftCall};

use codes::code;
use rules::ZONES;

// The weights for a shift: `shift::shift_weights`. Answers 0 and writes the weights from zone 0 on; or answers the refusal and alters nothing.
pub fn catrovindy_shift_weights(shift: i32, weights: &mut [u32; ZONES]) -> u64
    ensures { ShiftCall shift weights.old weights.new result }
{
    match shift::shift_weights(shift) {
        Err(r) => code(r),
        Ok(w) => {
            *weights = w.into();
            0
        }
    }
}
