// Writing all of a report, and telling a failed write from an interrupted one.
ghost use Rattle.std.specs.Prelude.{ℕ, ◌+◌, ◌≤◌, IfOk, MatchResult, OnErr, OnOk, drop, length, take};
ghost use Rattle.std.specs.Io.KnownBytes.{Appends, Keeps};

use std::io;
use std::io::{ErrorKind, Write};

// No run needs so many writes: each one but the interrupted ones takes a byte or more, and no report has so many bytes.
const MAX_WRITES: u32 = 16777216;

// One write, of the bytes from `done` on. One that a signal interrupts takes nothing, and has not failed.
fn write_more<W: Write>(out: &mut W, bytes: &[u8], done: usize) -> io::Result<usize>
    requires { done ≤ length bytes.now }
    ensures bound { IfOk result (λ n. done + n ≤ length bytes.now) }
    ensures bytes { MatchResult result
        (λ n. Appends (W.contents out.old) (W.contents out.new) (take n (drop done bytes.now)))
        (λ _. Keeps (W.contents out.old) (W.contents out.new)) }
{
    match out.write(&bytes[done..]) {
        Ok(0) => Err(io::Error::from(ErrorKind::WriteZero)),
        Ok(n) => Ok(n),
        Err(error) if matches!(error.kind(), ErrorKind::Interrupted) => Ok(0),
        Err(error) => Err(error),
    }
}

// A report's bytes, all of them, or the error of the write that failed, with the first of them written. A writer whose contents are known then
// has those behind them. What stands in a file is what the system call does with the bytes that it says it took: no contract speaks of that.
pub fn lines<W: Write>(out: &mut W, bytes: &[u8]) -> io::Result<()>
    ensures all { OnOk result (Appends (W.contents out.old) (W.contents out.new) bytes.now) }
    ensures part { OnErr result ((n : ℕ) × (n ≤ length bytes.now)
        × Appends (W.contents out.old) (W.contents out.new) (take n bytes.now)) }
{
    let mut done = 0;
    for _ in 0..MAX_WRITES {
        if done == bytes.len() {
            return Ok(());
        }
        done += write_more(out, bytes, done)?;
    }
    if done < bytes.len() {
        return Err(io::Error::from(ErrorKind::Interrupted));
    }
    Ok(())
}
