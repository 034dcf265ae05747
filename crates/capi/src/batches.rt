// A batch of readings for callers in C and Rust.
ghost use Rattle.std.specs.Prelude.{◌≡◌};
ghost use Rattle.batch.specs.Batch.{batch_of};
ghost use Rattle.codes.specs.Codes.{slot_list};
ghost use Rattle.capi.specs.MonitorCall.{monitor_of};
ghost use Rattle.capi.specs.BatchCall.{BatchCall};

use call_arrays::{batch_code, write_batch};
use codes::list_of;
use codes::sizes::{BATCH_ANSWER, SLOTS};
use monitor::{Chart, Monitor};

// Readings one after another until one signals or none is left: `batch::take_readings`. Answers 0, with the monitor for the next reading,
// and in `answer` how many readings were taken, the count and the mask of the last of them (the mask is 0 where all were quiet), and the
// number that the next reading would be refused by where that stopped it, or 0. Or, where any first reading would be refused, also where there
// is none, answers that refusal and alters nothing.
pub fn catrovindy_batch(
    slots: &[u32; SLOTS],
    count: u32,
    state: &mut [u64; 1],
    points: &mut [u32; 1],
    centre: i32,
    sigma: u32,
    readings: &[i32],
    answer: &mut [u64; BATCH_ANSWER],
) -> u64
    ensures { BatchCall
        (batch_of (slot_list slots.now count) (monitor_of state.old points.old) centre sigma readings.now)
        state.old points.old answer.old state.new points.new answer.new result }
{
    let kept = state[0];
    let counted = points[0];
    let given = Monitor {
        state: kept,
        count: counted,
    };
    let chart = Chart { centre, sigma };
    let found = batch::take_readings(list_of(*slots, count), given, chart, readings);
    let refused = batch_code(found);
    if refused != 0 {
        return refused;
    }
    write_batch(state, points, answer, found);
    0
}
