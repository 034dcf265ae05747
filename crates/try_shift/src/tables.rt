// Every shift through the run-length table of the Western Electric rules, to 48 periods.
use rules::{RuleList, ZoneWeights};
use shift::{MAX_SHIFT, MIN_SHIFT, shift_weights};
use std::io;
use table::run_length_table;

// What is left at 48, and the mean cut there.
fn table_of(out: &impl Print, w: ZoneWeights) -> io::Result<()> {
    let list = RuleList::western_electric();
    match run_length_table(list, w.into(), 48, &mut [0; 48], &mut [0; 48]) {
        Ok(f) => {
            println!(out;
                " left {} mean {} and {}",
                f.survival, f.mean_whole, f.mean_fraction
            )
        }
        Err(r) => show::refusal(out, r),
    }
}

// Told by its weights of A1 and A2.
fn one_shift(out: &impl Print, shift: i32) -> io::Result<()> {
    match shift_weights(shift) {
        Ok(w) => {
            print!(out; "table {} {}", w.a1, w.a2)?;
            table_of(out, w)
        }
        Err(r) => show::refusal(out, r),
    }
}

pub fn every_shift(out: &impl Print) -> io::Result<()> {
    for shift in MIN_SHIFT..=MAX_SHIFT {
        one_shift(out, shift)?;
    }
    Ok(())
}
