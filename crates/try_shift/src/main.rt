// Tries the weights of a shifted core: every area of the table, beside a printed one and beside the sources' figures; the weights and the
// refusals at the bounds; and every shift through the run-length table. What it prints is compared with the file `stdout`.
#![tactic(auto)]

mod papers;
mod printed;
mod published;
mod tables;
mod weights;

use std::io;

fn main(rt: HostRuntime) -> io::Result<()> {
    published::areas(&rt)?;
    papers::figures(&rt)?;
    weights::bounds(&rt)?;
    tables::every_shift(&rt)
}
