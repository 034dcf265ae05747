// Tries the reports of the three programs on a folder of texts, good and bad. The file `list` names the texts, a path to a line; those whose
// path starts with `t` are for the table program, those with `w` for the weights program, all others for the monitor program. What is
// printed is compared with the file `stdout`.
#![tactic(auto)]

mod bytes;
mod reports;

use std::fs::File;
use std::io::Read;
use std::rt::Files;
use std::{io, str};

// The report of a file's text. One byte more than the longest text is read, so that a longer one is told.
fn opened<F: Read>(out: &impl Print, path: &[u8], file: &mut F) -> io::Result<()> {
    let mut text = [0u8; 65537];
    let n = output::read_input(file, &mut text)?;
    reports::report_by(out, path, &text[..n])
}

// The file, where its path is text and it can be opened.
fn open<R: Files>(rt: &R, path: &[u8]) -> Option<R::File> {
    let path = str::from_utf8(path).ok()?;
    File::open(rt, path).ok()
}

fn named(rt: &(impl Files + Print), path: &[u8]) -> io::Result<()> {
    rt.write_all(path)?;
    println!(rt)?;
    match open(rt, path) {
        Some(mut file) => opened(rt, path, &mut file),
        None => println!(rt; "cannot be opened"),
    }
}

// The texts that the list names, in its order.
fn texts(rt: &(impl Files + Print), list: &[u8]) -> io::Result<()> {
    for line in list.split_inclusive(|byte| *byte == b'\n') {
        named(rt, line.strip_suffix(b"\n").unwrap_or(line))?;
    }
    Ok(())
}

fn listed<F: Read>(rt: &(impl Files + Print), file: &mut F) -> io::Result<()> {
    let mut list = [0u8; 65536];
    let n = output::read_input(file, &mut list)?;
    texts(rt, &list[..n])
}

fn main(rt: HostRuntime) -> io::Result<()> {
    match open(&rt, b"list") {
        Some(mut file) => listed(&rt, &mut file),
        None => println!(&rt; "no list"),
    }
}
