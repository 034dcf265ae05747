// The ready lists and the check of a list.
use crate::answers;
use rules::RuleList;
use show::lists;
use show::lists::Rules::{One, Slots, Two};
use show::lists::{NONE, Rules, T};
use std::io;

const WIDEST: T = T(9, 9, 255);

static CASES: [Rules; 24] = [
    // The bounds of the length.
    Slots(WIDEST, WIDEST, WIDEST, 0),
    Slots(WIDEST, WIDEST, WIDEST, 1),
    Slots(WIDEST, WIDEST, WIDEST, 8),
    Slots(WIDEST, WIDEST, WIDEST, 9),
    Slots(WIDEST, WIDEST, WIDEST, 4294967295),
    // The bounds of k.
    One(T(0, 1, 1)),
    One(T(1, 1, 1)),
    One(T(2, 1, 1)),
    One(T(9, 9, 1)),
    One(T(10, 9, 1)),
    // The bounds of m.
    One(T(1, 0, 1)),
    One(T(1, 10, 1)),
    One(T(10, 10, 1)),
    One(T(4294967295, 4294967295, 1)),
    One(T(0, 0, 0)),
    // The bounds of the zones.
    One(T(1, 1, 0)),
    One(T(1, 1, 128)),
    One(T(1, 1, 255)),
    One(T(1, 1, 256)),
    One(T(1, 1, 4294967295)),
    // The second rule out of bounds; with no zone; out of bounds behind a first one with no zone.
    Two(T(2, 3, 2), T(3, 2, 2)),
    Two(T(2, 3, 2), T(2, 3, 0)),
    Two(T(2, 3, 0), T(3, 2, 2)),
    // A bad slot beyond the length.
    Slots(T(2, 3, 2), NONE, NONE, 1),
];

pub fn run(out: &impl Print, heading: &str) -> io::Result<()> {
    println!(out; "{heading}")?;
    for rules in &CASES {
        print!(out; "{rules}")?;
        answers::checked(out, RuleList::from(*rules).check())?;
    }
    Ok(())
}

fn ready(out: &impl Print, name: &str, list: RuleList) -> io::Result<()> {
    print!(out; "{name}")?;
    lists::whole(out, &list)?;
    answers::checked(out, list.check())
}

pub fn ready_lists(out: &impl Print, heading: &str) -> io::Result<()> {
    println!(out; "{heading}")?;
    ready(out, "Western Electric", RuleList::western_electric())?;
    ready(out, "Duncan", RuleList::duncan())
}
