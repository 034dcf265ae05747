// A batch as a code, and in the arrays that a caller lends.
ghost use Rattle.std.specs.Prelude.{◌≡◌};
ghost use Rattle.codes.specs.Codes.{check_code_by};
ghost use Rattle.call_arrays.specs.StepArrays.{state_as, points_as};
ghost use Rattle.call_arrays.specs.BatchArrays.{batch_checked, mask_as, number_as, batch_as_by};

use batch::Batch;
use codes::code;
use codes::sizes::BATCH_ANSWER;
use rules::Reason;

// The refusal of a batch that took nothing, else 0.
pub fn batch_code<R: Reason>(found: Batch<R>) -> u64
    ensures { result ≡ check_code_by R.number R.place (batch_checked found) }
{
    if found.taken > 0 {
        return 0;
    }
    match found.refusal {
        Some(refusal) => code(refusal),
        None => 0,
    }
}

// The mask of the last reading, 0 for quiet.
fn mask(signal: Option<u32>) -> u32
    ensures { result ≡ mask_as signal }
{
    signal.unwrap_or(0)
}

// The number of the refusal, 0 for none.
fn number<R: Reason>(refusal: Option<R>) -> u32
    ensures { result ≡ number_as R.number refusal }
{
    match refusal {
        Some(x) => x.told().0,
        None => 0,
    }
}

// The monitor for the next reading, and how far the batch came.
pub fn write_batch<R: Reason>(
    state: &mut [u64; 1],
    points: &mut [u32; 1],
    answer: &mut [u64; BATCH_ANSWER],
    found: Batch<R>,
)
    ensures state_after { state.new ≡ state_as found.next state.old }
    ensures points_after { points.new ≡ points_as found.next points.old }
    ensures answer_after { answer.new ≡ batch_as_by R.number found answer.old }
{
    let next = found.next;
    state[0] = next.state;
    points[0] = next.count;
    answer[0] = found.taken as u64;
    answer[1] = u64::from(found.count);
    answer[2] = u64::from(mask(found.signal));
    answer[3] = u64::from(number(found.refusal));
}
