// The percentile bracket for callers in C and Rust.
ghost use Rattle.std.specs.Prelude.{◌≡◌};
ghost use Rattle.capi.specs.BracketCall.{BracketCalled};

use call_arrays::write_bracket;
use codes::code;
use codes::sizes::BRACKET_ANSWER;

// The percentile bracket: `bracket::percentile_bracket`. Answers 0 and writes 1, n, n for at n; 2, low, high for between; 3, low, 0 for
// open; 4, the list's length, 0 for beyond; or answers the refusal and alters nothing.
pub fn catrovindy_bracket(
    pmf: &[u64],
    state_count: u32,
    percent: u32,
    answer: &mut [u32; BRACKET_ANSWER],
) -> u64
    ensures { BracketCalled pmf.now state_count percent answer.old answer.new result }
{
    match bracket::percentile_bracket(pmf, state_count, percent) {
        Err(r) => code(r),
        Ok(found) => {
            write_bracket(answer, found);
            0
        }
    }
}
