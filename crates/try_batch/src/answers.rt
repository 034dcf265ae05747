// A batch with its printed answer.
use batch::{Batch, take_readings};
use monitor::{Chart, Monitor};
use rules::{Reason, RuleList};
use std::io;

fn answer<R: Reason>(out: &impl Print, found: Batch<R>) -> io::Result<()> {
    // The rules that the last reading signals by, 0 for none.
    let mask = found.signal.unwrap_or(0);
    let next = found.next;
    print!(out; " taken {} count {} mask {mask}", found.taken, found.count)?;
    print!(out; " then state {} count {}", next.state, next.count)?;
    match found.refusal {
        Some(r) => show::refusal(out, r),
        None => show::refusal(out, (0, 0)),
    }
}

// The batch on a chart with centre 100.
pub fn batch(
    out: &impl Print,
    name: &str,
    list: RuleList,
    monitor: Monitor,
    sigma: u32,
    readings: &[i32],
) -> io::Result<()> {
    print!(out; "{name}:")?;
    let chart = Chart { centre: 100, sigma };
    answer(out, take_readings(list, monitor, chart, readings))
}
