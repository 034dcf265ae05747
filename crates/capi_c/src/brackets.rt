// The percentile bracket, exported.
ghost use Rattle.std.specs.Prelude.{◌≡◌};
ghost use Rattle.capi.specs.BracketCall.{BracketCalled};

use codes::sizes::BRACKET_ANSWER;

// The percentile bracket: `bracket::percentile_bracket`. Answers 0 and writes 1, n, n for at n; 2, low, high for between; 3, low, 0 for
// open; 4, the list's length, 0 for beyond; or answers the refusal and alters nothing.
#[unsafe(no_mangle)]
pub extern "C" fn catrovindy_bracket(
    pmf: &[u64],
    state_count: u32,
    percent: u32,
    answer: &mut [u32; BRACKET_ANSWER],
) -> u64
    ensures { BracketCalled pmf.now state_count percent answer.old answer.new result }
{
    capi::catrovindy_bracket(pmf, state_count, percent, answer)
}
