// The monitor's step.
use crate::answers;
use monitor::{Chart, Monitor};
use rules::RuleList;
use show::lists::Rules::{One, Two};
use show::lists::{Rules, T};
use std::io;

// A list, the state, the count and the zone of the point.
#[derive(Clone, Copy)]
pub struct Case(Rules, u64, u32, u32);

const LAST: u32 = 4294967295;

pub static REFUSALS: [Case; 22] = [
    // The bounds of the zone.
    Case(One(T(2, 3, 2)), 0, 0, 7),
    Case(One(T(2, 3, 2)), 0, 0, 8),
    Case(One(T(2, 3, 2)), 0, 0, LAST),
    // 1 hit of 2, 2 hits of 2; a hit of age 2 in 3, of age 3 in 3; with 3,3 hits of age 1 and 2, a hit of age 2 alone.
    Case(One(T(2, 3, 2)), 1, 9, 3),
    Case(One(T(2, 3, 2)), 3, 9, 3),
    Case(One(T(2, 3, 2)), 2, 9, 3),
    Case(One(T(2, 3, 2)), 4, 9, 3),
    Case(One(T(3, 3, 2)), 3, 9, 3),
    Case(One(T(3, 3, 2)), 2, 9, 3),
    // A hit of age 2 in 2 points, in 1 point; a hit in no points.
    Case(One(T(2, 3, 2)), 2, 2, 3),
    Case(One(T(2, 3, 2)), 2, 1, 3),
    Case(One(T(2, 3, 2)), 1, 0, 3),
    // A hit in window 1 with 1 rule, with 2 rules; in window 7.
    Case(One(T(2, 3, 2)), 256, 9, 3),
    Case(Two(T(2, 3, 2), T(2, 3, 4)), 256, 9, 3),
    Case(One(T(2, 3, 2)), 72057594037927936, 9, 3),
    // The bounds of the count; the last count where the point would signal.
    Case(One(T(2, 3, 2)), 0, 4294967294, 3),
    Case(One(T(2, 3, 2)), 0, LAST, 3),
    Case(One(T(1, 1, 255)), 0, LAST, 0),
    // The order: the last count with a bad state, with a bad zone; a bad state with a bad zone; a bad list with all of
    // them.
    Case(One(T(2, 3, 2)), 3, LAST, 3),
    Case(One(T(2, 3, 2)), 0, LAST, 8),
    Case(One(T(2, 3, 2)), 3, 9, 8),
    Case(One(T(0, 3, 2)), 3, LAST, 8),
];

// With 2,2 on A1 and 2,2 on A2 both windows cannot have a hit of age 1; the state passes all the same. The points are in
// C1, A1 and A2.
pub static UNMET: [Case; 3] = [
    Case(Two(T(2, 2, 2), T(2, 2, 64)), 257, 9, 3),
    Case(Two(T(2, 2, 2), T(2, 2, 64)), 257, 9, 1),
    Case(Two(T(2, 2, 2), T(2, 2, 64)), 257, 9, 6),
];

pub fn run(out: &impl Print, heading: &str, cases: &[Case]) -> io::Result<()> {
    println!(out; "{heading}")?;
    for Case(rules, state, count, zone) in cases {
        print!(out; "{rules} state {state} count {count} zone {zone}")?;
        let monitor = Monitor {
            state: *state,
            count: *count,
        };
        answers::step(out, monitor, monitor.step(RuleList::from(*rules), *zone))?;
    }
    Ok(())
}

const CHART: Chart = Chart {
    centre: 100,
    sigma: 10,
};

// The zone of a reading on the chart, and the step there.
fn reading(out: &impl Print, monitor: Monitor, list: RuleList, r: i32) -> io::Result<Monitor> {
    let Ok(zone) = CHART.zone_of(r) else {
        return Ok(monitor);
    };
    print!(out; "{r} zone {zone}")?;
    answers::step(out, monitor, monitor.step(list, zone))
}

// Each reading in turn, from a fresh monitor.
fn readings(out: &impl Print, list: RuleList, rs: &[i32]) -> io::Result<()> {
    let mut monitor = Monitor::fresh();
    for r in rs {
        monitor = reading(out, monitor, list, *r)?;
    }
    Ok(())
}

pub fn example(out: &impl Print, heading: &str) -> io::Result<()> {
    println!(out; "{heading}")?;
    readings(
        out,
        RuleList::western_electric(),
        &[121, 100, 121, 121, 131],
    )
}

pub fn readings_with(out: &impl Print, heading: &str, rules: Rules, rs: &[i32]) -> io::Result<()> {
    println!(out; "{heading}")?;
    println!(out; "{rules}")?;
    readings(out, rules.into(), rs)
}
