// The run-length table of a rule list: how likely a chart is to signal at each point up to a horizon.
#![tactic(auto)]

ghost use Rattle.std.specs.Prelude.{◌≡◌};
ghost use Rattle.table.specs.Table.{table_call, table_of};
ghost use Rattle.table.specs.Table.{call_result};

use rules::{Refusal, RuleList, ZONES};

mod check;

pub use check::check_chain;

// What an accepted call answers besides the two lists: N, the number of states that differ, left at the horizon, and the cut mean as whole
// part and fraction in units of 2^-60.
#[derive(Clone, Copy)]
pub struct TableFigures {
    pub state_count: u32,
    pub survival: u64,
    pub mean_whole: u64,
    pub mean_fraction: u64,
}

// The run-length table: refused by 2, 3, 4; 8; 9; 10; 11, in this order, with both lists as they were; else the chance of a signal at each
// n from 1 to the horizon stands in `pmf`, the chance of none so far in `survival`, in units of 2^-60, and the places beyond are kept.
pub fn run_length_table(
    list: RuleList,
    weights: [u32; ZONES],
    horizon: u32,
    pmf: &mut [u64],
    survival: &mut [u64],
) -> Result<TableFigures, Refusal>
    ensures { call_result result pmf.new survival.new
        ≡ table_of (table_call list weights horizon pmf.old survival.old) }
{
    let mut moves = [0u16; ZONES * RuleList::MAX_STATES];
    let n = check_chain(list, weights, horizon, &mut moves)?;
    let h = horizon as usize;
    if pmf.len() < h {
        return Err(Refusal::ShortList);
    }
    if survival.len() < h {
        return Err(Refusal::ShortList);
    }
    let totals = rows::run_rows(&moves, n, &weights, h, pmf, survival);
    Ok(TableFigures {
        state_count: n as u32,
        survival: totals.survival,
        mean_whole: totals.mean_whole,
        mean_fraction: totals.mean_fraction,
    })
}
