// How many states lists of rules have: those that differ.
use crate::{answers, cases};
use rules::{Rule, RuleList};
use show::HALVES;
use show::lists::{T, list_of, whole, with};
use std::io;

fn named(out: &impl Print, name: &str, list: RuleList) -> io::Result<()> {
    print!(out; "{name}")?;
    whole(out, &list)?;
    answers::table_of(out, list, HALVES, 1, (1, 1))
}

pub fn largest(out: &impl Print) -> io::Result<()> {
    println!(out; "the largest lists, with the weights of zones 0, 1, 2 and 4")?;
    named(out, "Western Electric", RuleList::western_electric())?;
    named(out, "Duncan", RuleList::duncan())?;
    cases::run(out, &cases::LARGEST)?;
    // Before merging, 590 states where no point is on the centre line; over 1,024 with C0.
    let four = list_of(&[T(4, 6, 126), T(4, 7, 115), T(4, 9, 2), T(4, 4, 57)]);
    named(out, "four rules", four)
}

// Nine in a row in place of eight: 351 states before merging.
fn with_nine() -> RuleList {
    let mut list = RuleList::western_electric();
    list.rules[5] = Rule::new(9, 9, 112);
    list.rules[6] = Rule::new(9, 9, 14);
    list
}

pub fn merged(out: &impl Print) -> io::Result<()> {
    println!(out; "lists with standings that do not differ")?;
    named(out, "Western Electric with nine in a row", with_nine())?;
    cases::run(out, &cases::MERGED)
}

pub fn given_twice(out: &impl Print) -> io::Result<()> {
    println!(out; "rules given twice")?;
    let twice = with(RuleList::western_electric(), T(1, 1, 1));
    named(out, "Western Electric, its first rule twice", twice)?;
    cases::run(out, &cases::TWICE)
}
