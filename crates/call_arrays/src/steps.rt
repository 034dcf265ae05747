// A step in the arrays that a caller lends.
ghost use Rattle.std.specs.Prelude.{◌≡◌};
ghost use Rattle.call_arrays.specs.StepArrays.{state_as, points_as, answer_as};

use codes::sizes::STEP_ANSWER;
use monitor::Monitor;

// The monitor for the next point, and the count and the mask of this one.
pub fn write_step(
    state: &mut [u64; 1],
    points: &mut [u32; 1],
    answer: &mut [u32; STEP_ANSWER],
    next: Monitor,
    count: u32,
    mask: u32,
)
    ensures state_after { state.new ≡ state_as next state.old }
    ensures points_after { points.new ≡ points_as next points.old }
    ensures answer_after { answer.new ≡ answer_as count mask answer.old }
{
    state[0] = next.state;
    points[0] = next.count;
    answer[0] = count;
    answer[1] = mask;
}
