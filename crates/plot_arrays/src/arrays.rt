// The plot record as two arrays: the kinds of its items, and its doubles.
ghost use Rattle.std.specs.Prelude.{◌≡◌, ◌<◌};
ghost use Rattle.plot_arrays.specs.PlotArrays.{kind_of, first_of, second_of, item_as, kinds_as, items_as, values_as};

use plot::{PlotItem, PlotRecord};

// The places of each array that is written.
pub const KINDS: usize = 6;

pub const VALUES: usize = 13;

// 1 for a point, 2 for a span, 3 for open, 4 for beyond.
fn kind(item: PlotItem) -> u32
    ensures { result ≡ kind_of item }
{
    match item {
        PlotItem::Point(_) => 1,
        PlotItem::Span(_, _) => 2,
        PlotItem::Open(_) => 3,
        PlotItem::Beyond(_) => 4,
    }
}

// An item's first double.
fn first(item: PlotItem) -> f64
    ensures { result ≡ first_of item }
{
    match item {
        PlotItem::Point(x) => x,
        PlotItem::Span(low, _) => low,
        PlotItem::Open(low) => low,
        PlotItem::Beyond(h) => h,
    }
}

// An item's last double: a span's second, else the first.
fn second(item: PlotItem) -> f64
    ensures { result ≡ second_of item }
{
    match item {
        PlotItem::Point(x) => x,
        PlotItem::Span(_, high) => high,
        PlotItem::Open(low) => low,
        PlotItem::Beyond(h) => h,
    }
}

// The two doubles of item i.
fn write_item(values: &mut [f64; VALUES], i: usize, item: PlotItem)
    requires { i < 5 }
    ensures { values.new ≡ item_as i item values.old }
{
    values[2 * i] = first(item);
    values[2 * i + 1] = second(item);
}

// The ten doubles of the five items.
fn write_items(values: &mut [f64; VALUES], found: PlotRecord)
    ensures { values.new ≡ items_as found values.old }
{
    write_item(values, 0, found.p5);
    write_item(values, 1, found.p25);
    write_item(values, 2, found.p50);
    write_item(values, 3, found.p75);
    write_item(values, 4, found.p95);
}

// All the record's doubles.
pub fn write_values(values: &mut [f64; VALUES], found: PlotRecord)
    ensures { values.new ≡ values_as found values.old }
{
    write_items(values, found);
    values[10] = found.lower;
    values[11] = found.upper;
    values[12] = found.iqr;
}

// The kinds of the five items, and whether there is an interquartile range.
pub fn write_kinds(kinds: &mut [u32; KINDS], found: PlotRecord)
    ensures { kinds.new ≡ kinds_as found kinds.old }
{
    kinds[0] = kind(found.p5);
    kinds[1] = kind(found.p25);
    kinds[2] = kind(found.p50);
    kinds[3] = kind(found.p75);
    kinds[4] = kind(found.p95);
    kinds[5] = u32::from(found.has_iqr);
}
