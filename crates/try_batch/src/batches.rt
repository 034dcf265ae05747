// Batches that are taken.
use crate::answers::batch;
use monitor::Monitor;
use rules::RuleList;
use show::lists::{T, list_of};
use std::io;

pub fn western_electric(out: &impl Print) -> io::Result<()> {
    println!(out; "Western Electric")?;
    let list = RuleList::western_electric();
    let fresh = Monitor::fresh();
    // The third reading signals, by the rule with index 2; the fourth is not taken.
    batch(
        out,
        "121, 100, 121, 121",
        list,
        fresh,
        10,
        &[121, 100, 121, 121],
    )?;
    // Both are quiet: rules 2 and 4 remember the first; rule 6 forgets it, since the second is on the centre line.
    batch(out, "121, 100", list, fresh, 10, &[121, 100])?;
    // The first of two readings fills the count, and the second is not taken.
    let nearly = Monitor {
        state: 0,
        count: 4294967294,
    };
    batch(
        out,
        "101, 90, one point before the last",
        list,
        nearly,
        10,
        &[101, 90],
    )?;
    batch(
        out,
        "101, one point before the last",
        list,
        nearly,
        10,
        &[101],
    )
}

// 2,2,6 and 2,3,6 hold together at the second point.
pub fn two_rules(out: &impl Print) -> io::Result<()> {
    println!(out; "two rules at once")?;
    let list = list_of(&[T(2, 2, 6), T(2, 3, 6)]);
    let fresh = Monitor::fresh();
    batch(out, "121, 111", list, fresh, 10, &[121, 111, 100])?;
    batch(out, "121, 100, 111", list, fresh, 10, &[121, 100, 111])
}
