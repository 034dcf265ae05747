// A report's answer as a code.
ghost use Rattle.std.specs.Prelude.{◌≡◌};
ghost use Rattle.rules.specs.Check.{checked};
ghost use Rattle.codes.specs.Codes.{check_code_by};
ghost use Rattle.call_arrays.specs.ReportArrays.{answer_count};

use codes::code;
use rules::Reason;

// The code of a report's answer, and its number of bytes in `bytes`.
pub fn report_code<R: Reason>(answer: Result<usize, R>, bytes: &mut [u64; 1]) -> u64
    ensures { (result ≡ check_code_by R.number R.place (checked answer)) × (bytes.new ≡ answer_count answer bytes.old) }
{
    match answer {
        Err(r) => code(r),
        Ok(n) => {
            bytes[0] = n as u64;
            0
        }
    }
}
