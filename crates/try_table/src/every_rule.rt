// How many states every rule alone has.
use show::HALVES;
use show::lists::{T, list_of};
use std::io;

// The states of the rule alone; 0 where the table is refused.
fn states(rule: T) -> u32 {
    let mut pmf = [0u64; 1];
    let mut survival = [0u64; 1];
    match table::run_length_table(list_of(&[rule]), HALVES, 1, &mut pmf, &mut survival) {
        Ok(figures) => figures.state_count,
        Err(_) => 0,
    }
}

pub fn every_rule(out: &impl Print) -> io::Result<()> {
    println!(out; "states of k,m on zones 1 and 2, on all but C0, and on all zones")?;
    for m in 1..=9 {
        for k in 1..=m {
            print!(out; "{k},{m}")?;
            for zones in [6, 127, 255] {
                print!(out; " {}", states(T(k, m, zones)))?;
            }
            println!(out)?;
        }
    }
    Ok(())
}
