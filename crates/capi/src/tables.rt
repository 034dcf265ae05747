// The run-length table for callers in C and Rust.
ghost use Rattle.codes.specs.Codes.{slot_list};
ghost use Rattle.table.specs.Table.{table_call};
ghost use Rattle.capi.specs.TableCall.{TableCalled};

use codes::sizes::{FIGURES, SLOTS};
use codes::{code, list_of};
use rules::ZONES;

// The run-length table: `table::run_length_table`. Answers 0 and writes N, left at the horizon and the cut mean's whole part and fraction
// to `figures`; or answers the refusal and alters nothing.
pub fn catrovindy_table(
    slots: &[u32; SLOTS],
    count: u32,
    weights: &[u32; ZONES],
    horizon: u32,
    pmf: &mut [u64],
    survival: &mut [u64],
    figures: &mut [u64; FIGURES],
) -> u64
    ensures { TableCalled (table_call (slot_list slots.now count) weights.now horizon pmf.old survival.old)
        figures.old pmf.new survival.new figures.new result }
{
    match table::run_length_table(list_of(*slots, count), *weights, horizon, pmf, survival) {
        Err(r) => code(r),
        Ok(f) => {
            figures[0] = f.state_count as u64;
            figures[1] = f.survival;
            figures[2] = f.mean_whole;
            figures[3] = f.mean_fraction;
            0
        }
    }
}
