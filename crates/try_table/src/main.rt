// Tries the run-length table on document 01's listing, on the number of states of every rule alone, on the largest lists, on lists with
// standings that do not differ, and on every refusal with its nearest accepted neighbour. What it prints is compared with the file
// `stdout`.
#![tactic(auto)]

mod answers;
mod cases;
mod counts;
mod every_rule;
mod listing;

use show::lists::Rules::One;
use show::lists::T;
use std::io;

fn main(rt: HostRuntime) -> io::Result<()> {
    listing::rows(&rt, "the listing of document 01", One(T(2, 2, 2)))?;
    listing::rows(&rt, "rule 2,3,2 on the listing's weights", One(T(2, 3, 2)))?;
    every_rule::every_rule(&rt)?;
    counts::largest(&rt)?;
    counts::merged(&rt)?;
    counts::given_twice(&rt)?;
    println!(&rt; "refusals")?;
    cases::run(&rt, &cases::REFUSALS)
}
