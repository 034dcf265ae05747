// The normal areas that sources 001 and 004 print, to four decimals.
use rules::ZoneWeights;
use shift::{area_at, shift_weights};
use std::io;

// The printed figure in ten thousandths, beside ours of two zones together, to the nearest.
fn figure(out: &impl Print, name: &str, printed: u64, zones: [u32; 2]) -> io::Result<()> {
    let units = u64::from(zones[0]) + u64::from(zones[1]);
    let ours = (units * 10000 + 536870912) / 1073741824;
    let met = if ours == printed { "met" } else { "not met" };
    println!(out; "{name}: {printed} ours {ours} {met}")
}

fn figures_of(out: &impl Print, w: ZoneWeights) -> io::Result<()> {
    figure(out, "source 001, S", 27, [w.s, 0])?;
    figure(out, "source 001, A", 428, [w.a1, w.a2])?;
    figure(out, "source 001, B", 2718, [w.b1, w.b2])?;
    figure(out, "source 001, C", 6827, [w.c1, w.c2])?;
    let beyond = 536870912u32.saturating_sub(area_at(76));
    figure(out, "source 004, beyond 0.76", 2236, [beyond, 0])
}

// Of a core that is not shifted.
pub fn figures(out: &impl Print) -> io::Result<()> {
    match shift_weights(0) {
        Ok(w) => figures_of(out, w),
        Err(r) => show::refusal(out, r),
    }
}
