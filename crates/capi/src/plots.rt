// The plot record for callers in C and Rust.
ghost use Rattle.table.specs.Table.{table_call};
ghost use Rattle.codes.specs.Codes.{slot_list};
ghost use Rattle.capi.specs.PlotCall.{PlotCalled};

use codes::sizes::SLOTS;
use codes::{code, list_of};
use plot_arrays::{KINDS, VALUES, write_kinds, write_values};
use rules::ZONES;

// The plot record: `plot::box_plot`. Answers 0 and writes to `kinds` 1 for a point, 2 for a span, 3 for open and 4 for beyond, for each of the
// percentiles 5, 25, 50, 75, 95, and 1 or 0 for whether there is an interquartile range; to `values` two doubles for each percentile (a span
// has two, the others one that stands twice), the mean's lower and upper value and the interquartile range. Or answers the refusal and alters
// nothing.
pub fn catrovindy_plot(
    slots: &[u32; SLOTS],
    count: u32,
    weights: &[u32; ZONES],
    horizon: u32,
    pmf: &mut [u64],
    survival: &mut [u64],
    kinds: &mut [u32; KINDS],
    values: &mut [f64; VALUES],
) -> u64
    ensures { PlotCalled (table_call (slot_list slots.now count) weights.now horizon pmf.old survival.old)
        kinds.old values.old
        pmf.new survival.new kinds.new values.new result }
{
    match plot::box_plot(list_of(*slots, count), *weights, horizon, pmf, survival) {
        Err(r) => code(r),
        Ok(found) => {
            write_kinds(kinds, found);
            write_values(values, found);
            0
        }
    }
}
