// The plot record of a rule list: five percentile items, the restricted mean's two bounds and the interquartile range, in exact doubles.
#![tactic(auto)]

ghost use Rattle.std.specs.Prelude.{◌≡◌, ◌+◌, ◌*◌, ◌<◌, ◌≤◌};
ghost use Rattle.runlength.specs.Scale.{max_horizon};
ghost use Rattle.table.specs.Table.{table_call, mean_of};
ghost use Rattle.summary.specs.ErrorBoundLaws.{max_error_bound};
ghost use Rattle.plot.specs.Double.{Exactly};
ghost use Rattle.plot.specs.Item.{item_of, Ordered, spread_of};
ghost use Rattle.plot.specs.MeanBounds.{parts_per_one, round_down, round_up, MeanFits};
ghost use Rattle.plot.specs.Plot.{record_of, Plottable, box_plot_of};
ghost use Rattle.table.specs.Table.{call_result};

use bracket::Bracket;
use rules::{Refusal, RuleList, ZONES};
use summary::{Summary, table_summary};
use table::TableFigures;

// A percentile for the plotter: at a number, between two, at one or above, or beyond the horizon.
#[derive(Clone, Copy)]
pub enum PlotItem {
    Point(f64),
    Span(f64, f64),
    Open(f64),
    Beyond(f64),
}

// The restricted mean is at least `lower`, and with its error bound at most `upper`. The interquartile range `iqr` is the
// difference of the points 75 and 25; where one of them is no point it is 0 and `has_iqr` is false.
#[derive(Clone, Copy)]
pub struct PlotRecord {
    pub p5: PlotItem,
    pub p25: PlotItem,
    pub p50: PlotItem,
    pub p75: PlotItem,
    pub p95: PlotItem,
    pub lower: f64,
    pub upper: f64,
    pub iqr: f64,
    pub has_iqr: bool,
}

// Units of 2^-60 in one part of 2^-36.
const UNITS_PER_PART: u64 = 1 << 24;

// Parts of 2^-36 in one.
const PARTS_PER_ONE: u64 = 1 << 36;

// The whole part plus so many parts of 2^-36: 68719476736 is 2^36.
fn exact_mean(whole: u64, parts: u64) -> f64
    requires { (whole ≤ max_horizon + 1) × (parts < parts_per_one) }
    ensures { Exactly result (whole * parts_per_one + parts) parts_per_one }
{
    (whole as f64) + (parts as f64) / 68719476736.0
}

// A restricted mean, rounded down to 2^-36.
#[tactic(auto, using(crate::specs::MeanBoundsLaws::down_parts))]
fn lower_mean(figures: TableFigures) -> f64
    requires { MeanFits figures }
    ensures { Exactly result (round_down (mean_of figures)) parts_per_one }
{
    exact_mean(figures.mean_whole, figures.mean_fraction / UNITS_PER_PART)
}

// A restricted mean with its error bound, rounded up to 2^-36.
#[tactic(auto, using(crate::specs::MeanBoundsLaws::up_parts))]
fn upper_mean(figures: TableFigures, error: u64) -> f64
    requires { MeanFits figures × (error ≤ max_error_bound) }
    ensures { Exactly result (round_up (mean_of figures + error)) parts_per_one }
{
    let parts = (figures.mean_fraction + error + (UNITS_PER_PART - 1)) / UNITS_PER_PART;
    exact_mean(
        figures.mean_whole + parts / PARTS_PER_ONE,
        parts % PARTS_PER_ONE,
    )
}

// The item of a percentile's bracket.
#[tactic(auto, using(crate::specs::DoubleLaws::cast_nearest), unfolding(crate::specs::Item::item_of))]
fn plot_item(found: Bracket) -> PlotItem
    ensures { result ≡ item_of found }
{
    match found {
        Bracket::At(n) => PlotItem::Point(f64::from(n)),
        Bracket::Between { low, high } => PlotItem::Span(f64::from(low), f64::from(high)),
        Bracket::Open(low) => PlotItem::Open(f64::from(low)),
        Bracket::Beyond(horizon) => PlotItem::Beyond(f64::from(horizon)),
    }
}

// The interquartile range by the brackets of 25 and 75, where both are points.
fn quartile_spread(q25: Bracket, q75: Bracket) -> Option<f64>
    requires { Ordered q25 q75 }
    ensures { result ≡ spread_of q25 q75 }
{
    let Bracket::At(from) = q25 else {
        return None;
    };
    let Bracket::At(to) = q75 else {
        return None;
    };
    Some(f64::from(to) - f64::from(from))
}

// The record of a table's summary.
fn plot_record(summary: Summary) -> PlotRecord
    requires { Plottable summary }
    ensures { result ≡ record_of summary }
{
    let range = quartile_spread(summary.p25, summary.p75);
    PlotRecord {
        p5: plot_item(summary.p5),
        p25: plot_item(summary.p25),
        p50: plot_item(summary.p50),
        p75: plot_item(summary.p75),
        p95: plot_item(summary.p95),
        lower: lower_mean(summary.figures),
        upper: upper_mean(summary.figures, summary.error_bound),
        iqr: range.unwrap_or(0.0),
        has_iqr: range.is_some(),
    }
}

// The plot record by one run of the table, which is left in the two lists; refused as the table is.
pub fn box_plot(
    list: RuleList,
    weights: [u32; ZONES],
    horizon: u32,
    pmf: &mut [u64],
    survival: &mut [u64],
) -> Result<PlotRecord, Refusal>
    ensures { call_result result pmf.new survival.new
        ≡ box_plot_of (table_call list weights horizon pmf.old survival.old) }
{
    let summary = table_summary(list, weights, horizon, pmf, survival)?;
    Ok(plot_record(summary))
}
