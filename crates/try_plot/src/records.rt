// The records.
use crate::answers;
use plot::box_plot;
use rules::{RuleList, ZONES};
use show::lists::{T, list_of};
use show::{HALVES, IN_CONTROL};
use std::io;

// One rule, 2,2 on A1.
fn two_of_two() -> RuleList {
    list_of(&[T(2, 2, 2)])
}

// The lent lists are longer than the horizon: the brackets are of the first places alone.
pub fn listing(out: &impl Print) -> io::Result<()> {
    println!(out; "the listing")?;
    let answer = box_plot(two_of_two(), HALVES, 4, &mut [1; 9], &mut [1; 9]);
    answers::answer(out, answer)
}

fn thousand(out: &impl Print, list: RuleList) -> io::Result<()> {
    let answer = box_plot(list, IN_CONTROL, 1000, &mut [0; 1000], &mut [0; 1000]);
    answers::answer(out, answer)
}

pub fn western_electric(out: &impl Print) -> io::Result<()> {
    println!(out; "Western Electric in control, 1000 points")?;
    thousand(out, RuleList::western_electric())
}

pub fn duncan(out: &impl Print) -> io::Result<()> {
    println!(out; "Duncan in control, 1000 points")?;
    thousand(out, RuleList::duncan())
}

pub fn one_point(out: &impl Print) -> io::Result<()> {
    println!(out; "one point")?;
    let answer = box_plot(two_of_two(), HALVES, 1, &mut [0; 1], &mut [0; 1]);
    answers::answer(out, answer)
}

fn with(out: &impl Print, weights: [u32; ZONES], horizon: u32) -> io::Result<()> {
    let answer = box_plot(two_of_two(), weights, horizon, &mut [0; 2], &mut [0; 2]);
    answers::answer(out, answer)
}

pub fn refused(out: &impl Print) -> io::Result<()> {
    println!(out; "refused as the table")?;
    with(out, [0; ZONES], 2)?;
    with(out, HALVES, 0)?;
    with(out, HALVES, 3)
}
