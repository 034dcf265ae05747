// Tries the rule lists, the zones and the monitor on document 01's examples, on extremes, and on every refusal with its nearest
// accepted neighbour. What it prints is compared with the file `stdout`.
#![tactic(auto)]

mod answers;
mod checks;
mod steps;
mod zones;

use show::lists::Rules::{One, Two};
use show::lists::T;
use std::io;

fn main(rt: HostRuntime) -> io::Result<()> {
    zones::run(
        &rt,
        "zones of document 01, centre 100, sigma 10",
        &zones::EXAMPLES,
    )?;
    zones::run(&rt, "zones at the extremes", &zones::EXTREMES)?;
    zones::run(&rt, "refusal 1", &zones::SIGMAS)?;
    checks::ready_lists(&rt, "ready lists")?;
    checks::run(&rt, "refusals 2, 3 and 4")?;
    steps::example(&rt, "Western Electric on 121, 100, 121, 121")?;
    // Two points in A1.
    steps::readings_with(
        &rt,
        "two hits in the first two points meet 2 of 3",
        One(T(2, 3, 2)),
        &[121, 121],
    )?;
    // Rule 0 is 2,3 on A1 and rule 1 is 3,9 on A1 and B1. The points are in B1, B1, A1, A1, A1: rule 1 signals, and rule 0
    // forgets its hit too, so one more A1 stays quiet.
    steps::readings_with(
        &rt,
        "a signal clears every rule",
        Two(T(2, 3, 2), T(3, 9, 6)),
        &[111, 111, 121, 121, 121],
    )?;
    steps::run(&rt, "refusals 5, 6 and 7", &steps::REFUSALS)?;
    steps::run(
        &rt,
        "a state that no sequence meets is stepped by the same rule",
        &steps::UNMET,
    )
}
