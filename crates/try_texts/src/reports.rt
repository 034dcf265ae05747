// What each program prints for a text: the whole of it or, where it is long, its start, its end and what tells whether the rest is right.
ghost use Rattle.std.specs.Prelude.{ℕ, ◌≤◌, length};

use crate::bytes;
use monitor_report::{MONITOR_SIZE, monitor_output};
use std::convert::AsSlice;
use std::io;
use table_report::{TABLE_SIZE, table_output};
use weights_report::{WEIGHTS_SIZE, weights_output};

// The most bytes that are shown whole, and the first and the last lines that are shown of more.
const WHOLE: usize = 400;

const FIRST: usize = 3;

const LAST: usize = 6;

fn lines(out: &impl Print, report: &[u8]) -> io::Result<()> {
    output::lines(&mut io::writer(out), report)
}

fn ends(out: &impl Print, report: &[u8]) -> io::Result<()> {
    lines(out, &report[..bytes::end_of_line(report, FIRST - 1)])?;
    let checksum = bytes::checksum(report);
    println!(out; ".. bytes {} checksum {checksum} ..", report.len())?;
    lines(out, &report[bytes::tail(report, LAST)..])
}

fn written(out: &impl Print, report: &[u8]) -> io::Result<()> {
    if report.len() <= WHOLE {
        lines(out, report)
    } else {
        ends(out, report)
    }
}

// The report that a call leaves at the buffer's start.
fn reported<B: AsSlice<u8>, F: FnOnce(&[u8], &mut B) -> usize>(
    out: &impl Print,
    text: &[u8],
    buf: &mut B,
    report: F,
) -> io::Result<()>
    requires callable { F.IsAlwaysCallable report }
    requires bound { (t : _) (b : _) (n : ℕ) (b' : _) → F.post report t b n b' → n ≤ length (B.items b'.now) }
{
    let n = report(text, buf);
    written(out, &buf.as_slice()[..n])
}

// By the path's first letter.
pub fn report_by(out: &impl Print, path: &[u8], text: &[u8]) -> io::Result<()> {
    match path.first() {
        Some(b't') => reported(out, text, &mut [0; TABLE_SIZE], |text, buf| {
            table_output(text, buf)
        }),
        Some(b'w') => reported(out, text, &mut [0; WEIGHTS_SIZE], |text, buf| {
            weights_output(text, buf)
        }),
        _ => reported(out, text, &mut [0; MONITOR_SIZE], |text, buf| {
            monitor_output(text, buf)
        }),
    }
}
