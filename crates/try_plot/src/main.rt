// Prints the plot records of document 01's listing, of Western Electric and of Duncan in control, and the table's refusals, with every
// double as its bit pattern. What it prints is compared with the file `stdout`.
#![tactic(auto)]

mod answers;
mod records;

use std::io;

fn main(rt: HostRuntime) -> io::Result<()> {
    records::listing(&rt)?;
    records::western_electric(&rt)?;
    records::duncan(&rt)?;
    records::one_point(&rt)?;
    records::refused(&rt)
}
