// The monitor for callers in C and Rust. It is kept by the caller as two numbers: the state and the points counted, both 0 at the start.
ghost use Rattle.std.specs.Prelude.{◌≡◌};
ghost use Rattle.codes.specs.Codes.{slot_list};
ghost use Rattle.capi.specs.MonitorCall.{monitor_of, ZoneCall, StepCall};

use call_arrays::write_step;
use codes::sizes::{SLOTS, STEP_ANSWER};
use codes::{code, list_of};
use monitor::{Chart, Monitor, Step};

// The zone of a reading: `Chart::zone_of`. Answers 0 and writes the zone; or answers the refusal and alters nothing.
pub fn catrovindy_zone(reading: i32, centre: i32, sigma: u32, zone: &mut [u32; 1]) -> u64
    ensures { ZoneCall reading centre sigma zone.old zone.new result }
{
    let chart = Chart { centre, sigma };
    match chart.zone_of(reading) {
        Err(r) => code(r),
        Ok(z) => {
            zone[0] = z;
            0
        }
    }
}

// One point: `Monitor::step`. Answers 0, with the monitor for the next point, and in `answer` the count with this point in it and the mask
// of the rules that hold, 0 for quiet; or answers the refusal and alters nothing.
pub fn catrovindy_step(
    slots: &[u32; SLOTS],
    count: u32,
    state: &mut [u64; 1],
    points: &mut [u32; 1],
    zone: u32,
    answer: &mut [u32; STEP_ANSWER],
) -> u64
    ensures { StepCall (slot_list slots.now count) (monitor_of state.old points.old) zone
        state.old points.old answer.old state.new points.new answer.new result }
{
    let kept = state[0];
    let counted = points[0];
    let given = Monitor {
        state: kept,
        count: counted,
    };
    match given.step(list_of(*slots, count), zone) {
        Err(r) => code(r),
        Ok(Step::Quiet { count, next }) => {
            write_step(state, points, answer, next, count, 0);
            0
        }
        Ok(Step::Signal { count, mask, next }) => {
            write_step(state, points, answer, next, count, mask);
            0
        }
    }
}
