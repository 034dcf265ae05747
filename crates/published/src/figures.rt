// The figures of one chart that sources publish.
use crate::decimal::Exact;
use bracket::{Bracket, percentile_bracket};
use rules::{RuleList, ZONES};
use runlength::MAX_HORIZON;

// `first` is the probability of a signal at the first point. There is no quartile that is no single number.
#[derive(Clone, Copy)]
pub struct Figures {
    pub mean: Exact,
    pub first: Exact,
    pub quartile_1: Option<u64>,
    pub median: Option<u64>,
    pub quartile_3: Option<u64>,
}

// No mean as long as this is compared.
const LONGEST_MEAN: u64 = 65536;

// In units of 2^-60. With no more left at the horizon, neither the mean beyond it nor what the rows round off reaches the decimals that
// are compared.
const NEGLIGIBLE: u64 = 1024;

const LONGEST: usize = MAX_HORIZON as usize;

fn percentile(pmf: &[u64], states: u32, percent: u32) -> Option<u64> {
    match percentile_bracket(pmf, states, percent) {
        Ok(Bracket::At(n)) => Some(u64::from(n)),
        _ => None,
    }
}

// A horizon of 40 times the mean run length rounded down, and 40 more. Beyond the longest horizon the table is refused.
pub fn horizon_for(mean: u64) -> u32 {
    (mean % LONGEST_MEAN + 1) as u32 * 40
}

// None where the table is refused or the survival at the horizon is not negligible. The chances are 0 beyond the horizon, where nothing is
// left to signal.
pub fn of_chart(list: RuleList, weights: [u32; ZONES], horizon: u32) -> Option<Figures> {
    let mut pmf = [0u64; LONGEST];
    let mut survival = [0u64; LONGEST];
    let f = table::run_length_table(list, weights, horizon, &mut pmf, &mut survival).ok()?;
    if f.survival > NEGLIGIBLE {
        return None;
    }
    Some(Figures {
        mean: Exact {
            whole: f.mean_whole,
            fraction: f.mean_fraction,
        },
        first: Exact {
            whole: 0,
            fraction: pmf[0],
        },
        quartile_1: percentile(&pmf, f.state_count, 25),
        median: percentile(&pmf, f.state_count, 50),
        quartile_3: percentile(&pmf, f.state_count, 75),
    })
}
