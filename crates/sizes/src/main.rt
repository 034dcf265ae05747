// Prints every size, bound and number that callers in C and Rust go by, a line each: its name and its value. The tests compare the header and
// the Rust crate with these lines.
#![tactic(auto)]

mod bounds;
mod lists;
mod refusals;

use std::io;

fn main(rt: HostRuntime) -> io::Result<()> {
    for (name, value) in &bounds::BOUNDS {
        println!(&rt; "{name},{value}")?;
    }
    for (name, refusal) in &refusals::REFUSALS {
        println!(&rt; "{name},{}", refusal.number())?;
    }
    lists::ready(&rt)
}
