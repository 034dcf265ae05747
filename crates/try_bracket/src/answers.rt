// Printing a bracket.
use bracket::{Bracket, percentile_bracket};
use rules::Reason;
use std::io;

// Ends a line with a bracket, or with the refusal.
pub fn answer<R: Reason>(out: &impl Print, answer: Result<Bracket, R>) -> io::Result<()> {
    match answer {
        Ok(Bracket::At(n)) => println!(out; " at {n}"),
        Ok(Bracket::Between { low, high }) => println!(out; " between {low} and {high}"),
        Ok(Bracket::Open(n)) => println!(out; " open from {n}"),
        Ok(Bracket::Beyond(n)) => println!(out; " beyond {n}"),
        Err(r) => show::refusal(out, r),
    }
}

// Ends a line with the bracket of a list of chances, or with the refusal.
pub fn bracket(out: &impl Print, pmf: &[u64], states: u32, percent: u32) -> io::Result<()> {
    answer(out, percentile_bracket(pmf, states, percent))
}
