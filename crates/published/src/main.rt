// Compares the figures of tables and brackets with those published in sources 001, 002 and 004, each rounded as it is printed there.
// A figure that is not met is explained in docs/DECISIONS.md. What it prints is compared with the file `stdout`.
#![tactic(auto)]

mod compare;
mod decimal;
mod figures;
mod source001;
mod source002;
mod source004;
mod weights001;

use compare::Tally;
use std::io;

fn main(rt: HostRuntime) -> io::Result<()> {
    let mut tally = Tally { figures: 0, met: 0 };
    source001::tables(&rt, &mut tally)?;
    source002::table(&rt, &mut tally)?;
    source004::examples(&rt, &mut tally)?;
    println!(&rt; "{} figures, {} met", tally.figures, tally.met)
}
