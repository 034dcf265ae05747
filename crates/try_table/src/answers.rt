// Printing answers.
use rules::{Reason, RuleList, ZONES};
use std::io;
use table::TableFigures;

// Ends a line with the figures, or with the refusal.
pub fn answer<R: Reason>(out: &impl Print, answer: Result<TableFigures, R>) -> io::Result<()> {
    match answer {
        Ok(f) => {
            print!(out; " states {} left {}", f.state_count, f.survival)?;
            println!(out; " mean {} and {}", f.mean_whole, f.mean_fraction)
        }
        Err(r) => show::refusal(out, r),
    }
}

// The table of a list with so many places for the pmf and for the survival, up to 65,535.
pub fn table_of(
    out: &impl Print,
    list: RuleList,
    weights: [u32; ZONES],
    horizon: u32,
    places: (usize, usize),
) -> io::Result<()> {
    let mut pmf = [0u64; 65535];
    let mut survival = [0u64; 65535];
    let p = places.0.min(pmf.len());
    let s = places.1.min(survival.len());
    answer(
        out,
        table::run_length_table(list, weights, horizon, &mut pmf[..p], &mut survival[..s]),
    )
}
