// Tries the percentile bracket on document 01's short lists, on tables of the listing and of Western Electric for every percent, and on
// every refusal with its nearest accepted neighbour. What it prints is compared with the file `stdout`.
#![tactic(auto)]

mod answers;
mod cases;
mod tables;

use std::io;

fn main(rt: HostRuntime) -> io::Result<()> {
    println!(&rt; "short lists")?;
    cases::run(&rt, &cases::SHORT)?;
    println!(&rt; "refusals")?;
    cases::lengths(&rt)?;
    cases::run(&rt, &cases::REFUSALS)?;
    tables::listing(&rt)?;
    tables::western_electric(&rt)
}
