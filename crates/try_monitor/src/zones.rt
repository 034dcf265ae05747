// The zone of a reading.
use crate::answers;
use monitor::Chart;
use std::io;

// A reading, the centre line, sigma.
#[derive(Clone, Copy)]
pub struct Case(i32, i32, u32);

const LOWEST: i32 = -2147483648;

const HIGHEST: i32 = 2147483647;

// Document 01's.
pub static EXAMPLES: [Case; 13] = [
    Case(131, 100, 10),
    Case(130, 100, 10),
    Case(120, 100, 10),
    Case(111, 100, 10),
    Case(110, 100, 10),
    Case(101, 100, 10),
    Case(100, 100, 10),
    Case(99, 100, 10),
    Case(90, 100, 10),
    Case(89, 100, 10),
    Case(79, 100, 10),
    Case(70, 100, 10),
    Case(69, 100, 10),
];

pub static EXTREMES: [Case; 18] = [
    // As far apart as can be.
    Case(HIGHEST, LOWEST, 1),
    Case(HIGHEST, LOWEST, 65535),
    Case(LOWEST, HIGHEST, 1),
    Case(LOWEST, HIGHEST, 65535),
    // On the centre line at both ends, and one beside it.
    Case(LOWEST, LOWEST, 1),
    Case(-2147483647, LOWEST, 1),
    Case(LOWEST, -2147483647, 1),
    Case(HIGHEST, HIGHEST, 65535),
    Case(2147483646, HIGHEST, 65535),
    Case(HIGHEST, 2147483646, 65535),
    // Three sigma from the centre line, and one more.
    Case(196605, 0, 65535),
    Case(196606, 0, 65535),
    Case(-196605, 0, 65535),
    Case(-196606, 0, 65535),
    Case(-2147483645, LOWEST, 1),
    Case(-2147483644, LOWEST, 1),
    Case(2147483644, HIGHEST, 1),
    Case(2147483643, HIGHEST, 1),
];

// The bounds of sigma.
pub static SIGMAS: [Case; 5] = [
    Case(0, 0, 0),
    Case(0, 0, 1),
    Case(0, 0, 65535),
    Case(0, 0, 65536),
    Case(0, 0, 4294967295),
];

pub fn run(out: &impl Print, heading: &str, cases: &[Case]) -> io::Result<()> {
    println!(out; "{heading}")?;
    for Case(reading, centre, sigma) in cases {
        print!(out; "{reading} on {centre} sigma {sigma}")?;
        let chart = Chart {
            centre: *centre,
            sigma: *sigma,
        };
        answers::zoned(out, chart.zone_of(*reading))?;
    }
    Ok(())
}
