// Brackets of tables, for every percent from 1 to 99.
use crate::answers;
use rules::{RuleList, ZONES};
use show::lists::{T, list_of};
use std::io;
use table::run_length_table;

// Of a table; with 0 states, where it is refused.
fn every_percent(
    out: &impl Print,
    list: RuleList,
    weights: [u32; ZONES],
    horizon: u32,
    pmf: &mut [u64],
    survival: &mut [u64],
) -> io::Result<()> {
    let states = match run_length_table(list, weights, horizon, pmf, survival) {
        Ok(figures) => figures.state_count,
        Err(_) => 0,
    };
    for percent in 1..100 {
        print!(out; "{percent}")?;
        answers::bracket(out, pmf, states, percent)?;
    }
    Ok(())
}

pub fn listing(out: &impl Print) -> io::Result<()> {
    println!(out; "the listing")?;
    every_percent(
        out,
        list_of(&[T(2, 2, 2)]),
        show::HALVES,
        4,
        &mut [0; 4],
        &mut [0; 4],
    )
}

pub fn western_electric(out: &impl Print) -> io::Result<()> {
    println!(out; "Western Electric in control, 400 points")?;
    every_percent(
        out,
        RuleList::western_electric(),
        show::IN_CONTROL,
        400,
        &mut [0; 400],
        &mut [0; 400],
    )
}
