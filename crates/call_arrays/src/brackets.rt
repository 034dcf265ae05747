// A percentile's bracket in the array that a caller lends.
ghost use Rattle.std.specs.Prelude.{◌≡◌};
ghost use Rattle.call_arrays.specs.BracketArrays.{written, bracket_as};

use bracket::Bracket;
use codes::sizes::BRACKET_ANSWER;

// The three numbers of an answer.
fn write_answer(answer: &mut [u32; BRACKET_ANSWER], kind: u32, first: u32, second: u32)
    ensures { answer.new ≡ written kind first second answer.old }
{
    answer[0] = kind;
    answer[1] = first;
    answer[2] = second;
}

// A percentile's bracket.
pub fn write_bracket(answer: &mut [u32; BRACKET_ANSWER], found: Bracket)
    ensures { answer.new ≡ bracket_as found answer.old }
{
    match found {
        Bracket::At(n) => write_answer(answer, 1, n, n),
        Bracket::Between { low, high } => write_answer(answer, 2, low, high),
        Bracket::Open(low) => write_answer(answer, 3, low, 0),
        Bracket::Beyond(length) => write_answer(answer, 4, length, 0),
    }
}
