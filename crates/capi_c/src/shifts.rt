// The weights of a shifted core, exported.
ghost use Rattle.capi.specs.ShiftCall.{ShiftCall};

use rules::ZONES;

// The weights for a shift: `shift::shift_weights`. Answers 0 and writes the weights from zone 0 on; or answers the refusal and alters nothing.
#[unsafe(no_mangle)]
pub extern "C" fn catrovindy_shift_weights(shift: i32, weights: &mut [u32; ZONES]) -> u64
    ensures { ShiftCall shift weights.old weights.new result }
{
    capi::catrovindy_shift_weights(shift, weights)
}
