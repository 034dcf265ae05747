// Printing a plot record, doubles as bit patterns.
use plot::{PlotItem, PlotRecord};
use rules::Reason;
use std::io;

// A number's bit pattern; what is no number, which no record holds, would print as 0.
fn bits(x: f64) -> u64 {
    if x.is_nan() { 0 } else { x.to_bits() }
}

fn item(out: &impl Print, percent: u32, item: PlotItem) -> io::Result<()> {
    print!(out; "{percent}")?;
    match item {
        PlotItem::Point(x) => println!(out; " point {:016x}", bits(x)),
        PlotItem::Span(x, y) => println!(out; " span {:016x} {:016x}", bits(x), bits(y)),
        PlotItem::Open(x) => println!(out; " open {:016x}", bits(x)),
        PlotItem::Beyond(x) => println!(out; " beyond {:016x}", bits(x)),
    }
}

fn record(out: &impl Print, r: PlotRecord) -> io::Result<()> {
    let items = [
        (5, r.p5),
        (25, r.p25),
        (50, r.p50),
        (75, r.p75),
        (95, r.p95),
    ];
    for (percent, found) in items {
        item(out, percent, found)?;
    }
    print!(out; "lower {:016x} upper {:016x}", bits(r.lower), bits(r.upper))?;
    print!(out; " quartile difference {:016x}", bits(r.iqr))?;
    println!(out; " {}", if r.has_iqr { "held" } else { "none" })
}

pub fn answer<R: Reason>(out: &impl Print, answer: Result<PlotRecord, R>) -> io::Result<()> {
    match answer {
        Ok(r) => record(out, r),
        Err(r) => show::refusal(out, r),
    }
}
