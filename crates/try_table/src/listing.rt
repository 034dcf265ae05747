// The table of document 01's listing, row by row, with the places beyond the horizon.
use crate::answers;
use show::HALVES;
use show::lists::Rules;
use std::io;

// Four rows, and two places beyond them that keep what they held.
pub fn rows(out: &impl Print, heading: &str, rules: Rules) -> io::Result<()> {
    let mut pmf = [7u64; 6];
    let mut survival = [8u64; 6];
    println!(out; "{heading}")?;
    print!(out; "{rules}")?;
    let answer = table::run_length_table(rules.into(), HALVES, 4, &mut pmf, &mut survival);
    answers::answer(out, answer)?;
    for (n, (p, s)) in (1..).zip(pmf.iter().zip(&survival)) {
        println!(out; "{n},{p},{s}")?;
    }
    Ok(())
}
