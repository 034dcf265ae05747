// Batches that are refused, with their nearest accepted neighbours.
use crate::answers::batch;
use monitor::Monitor;
use rules::RuleList;
use show::lists::{T, list_of};
use std::io;

const FULL: Monitor = Monitor {
    state: 0,
    count: 4294967295,
};

// A hit with no points counted.
const UNMET: Monitor = Monitor { state: 1, count: 0 };

pub fn no_readings(out: &impl Print) -> io::Result<()> {
    println!(out; "no readings")?;
    let list = RuleList::western_electric();
    let fresh = Monitor::fresh();
    let nearly = Monitor {
        state: 0,
        count: 4294967294,
    };
    batch(out, "sigma 1", list, fresh, 1, &[])?;
    batch(out, "sigma 65535", list, fresh, 65535, &[])?;
    batch(out, "one point before the last", list, nearly, 10, &[])
}

pub fn no_readings_refused(out: &impl Print) -> io::Result<()> {
    let list = RuleList::western_electric();
    let fresh = Monitor::fresh();
    batch(out, "no rules", list_of(&[]), fresh, 10, &[])?;
    batch(out, "sigma 0", list, fresh, 0, &[])?;
    batch(out, "sigma 65536", list, fresh, 65536, &[])?;
    batch(out, "a hit with no points counted", list, UNMET, 10, &[])?;
    batch(out, "a full count", list, FULL, 10, &[])
}

pub fn one_reading(out: &impl Print) -> io::Result<()> {
    println!(out; "one reading")?;
    let list = RuleList::western_electric();
    let fresh = Monitor::fresh();
    batch(out, "no rules", list_of(&[]), fresh, 10, &[100])?;
    batch(out, "sigma 0", list, fresh, 0, &[100])?;
    batch(out, "a hit with no points counted", list, UNMET, 10, &[100])?;
    batch(out, "a full count", list, FULL, 10, &[100])
}

pub fn order(out: &impl Print) -> io::Result<()> {
    println!(out; "the order 2, 3, 4, 1, 5, 7")?;
    let bounds = list_of(&[T(1, 1, 1), T(2, 1, 0)]);
    let zones = list_of(&[T(1, 1, 1), T(1, 1, 256)]);
    let duncan = RuleList::duncan();
    let both = Monitor {
        state: 1,
        count: 4294967295,
    };
    batch(out, "3 before 4 and 1", bounds, UNMET, 0, &[])?;
    batch(out, "4 before 1", zones, UNMET, 0, &[])?;
    batch(out, "1 before 5", duncan, UNMET, 0, &[])?;
    batch(out, "5 before 7", duncan, both, 10, &[])
}
