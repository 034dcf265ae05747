// The monitor, exported.
ghost use Rattle.std.specs.Prelude.{◌≡◌};
ghost use Rattle.codes.specs.Codes.{slot_list};
ghost use Rattle.capi.specs.MonitorCall.{monitor_of, ZoneCall, StepCall};

use codes::sizes::{SLOTS, STEP_ANSWER};

// The zone of a reading: `Chart::zone_of`. Answers 0 and writes the zone; or answers the refusal and alters nothing.
#[unsafe(no_mangle)]
pub extern "C" fn catrovindy_zone(reading: i32, centre: i32, sigma: u32, zone: &mut [u32; 1]) -> u64
    ensures { ZoneCall reading centre sigma zone.old zone.new result }
{
    capi::catrovindy_zone(reading, centre, sigma, zone)
}

// One point: `Monitor::step`. Answers 0, with the monitor for the next point, and in `answer` the count with this point in it and the mask
// of the rules that hold, 0 for quiet; or answers the refusal and alters nothing.
#[unsafe(no_mangle)]
pub extern "C" fn catrovindy_step(
    slots: &[u32; SLOTS],
    count: u32,
    state: &mut [u64; 1],
    points: &mut [u32; 1],
    zone: u32,
    answer: &mut [u32; STEP_ANSWER],
) -> u64
    ensures { StepCall (slot_list slots.now count) (monitor_of state.old points.old) zone
        state.old points.old answer.old state.new points.new answer.new result }
{
    capi::catrovindy_step(slots, count, state, points, zone, answer)
}
