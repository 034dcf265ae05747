// Tries batches of readings on the chart with centre 100 and sigma 10: where they stop, and every refusal, also of a batch of no readings. What
// it prints is compared with the file `stdout`.
#![tactic(auto)]

mod answers;
mod batches;
mod refusals;

use std::io;

fn main(rt: HostRuntime) -> io::Result<()> {
    batches::western_electric(&rt)?;
    batches::two_rules(&rt)?;
    refusals::no_readings(&rt)?;
    refusals::no_readings_refused(&rt)?;
    refusals::one_reading(&rt)?;
    refusals::order(&rt)
}
