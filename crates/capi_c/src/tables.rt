// The run-length table, exported.
ghost use Rattle.codes.specs.Codes.{slot_list};
ghost use Rattle.table.specs.Table.{table_call};
ghost use Rattle.capi.specs.TableCall.{TableCalled};

use codes::sizes::{FIGURES, SLOTS};
use rules::ZONES;

// The run-length table: `table::run_length_table`. Answers 0 and writes N, left at the horizon and the cut mean's whole part and fraction
// to `figures`; or answers the refusal and alters nothing.
#[unsafe(no_mangle)]
pub extern "C" fn catrovindy_table(
    slots: &[u32; SLOTS],
    count: u32,
    weights: &[u32; ZONES],
    horizon: u32,
    pmf: &mut [u64],
    survival: &mut [u64],
    figures: &mut [u64; FIGURES],
) -> u64
    ensures { TableCalled (table_call (slot_list slots.now count) weights.now horizon pmf.old survival.old)
        figures.old pmf.new survival.new figures.new result }
{
    capi::catrovindy_table(slots, count, weights, horizon, pmf, survival, figures)
}
