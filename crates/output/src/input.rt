// Reading all of an input, and telling its end from an error.
ghost use Rattle.std.specs.Prelude.{ℕ, ◌≡◌, ◌+◌, ◌≤◌, ◌<◌, IfOk, MatchResult, None, OnErr, drop, length, take, unwrap_or};
ghost use Rattle.std.specs.Io.KnownBytes.{Consumes, IsAtEnd, Keeps};

use std::io;
use std::io::{ErrorKind, Read};

// No run needs so many reads: each one but the interrupted ones gives a byte or more, and a buffer has one byte more than the longest text.
const MAX_READS: u32 = 16777216;

// One read, behind the bytes that are there: how many bytes it gave; none at the input's end. One that a signal interrupts gives 0, and has not
// failed.
fn read_more<R: Read>(input: &mut R, buf: &mut [u8], done: usize) -> io::Result<Option<usize>>
    requires { done ≤ length buf.old }
    ensures bound { IfOk result (λ more. done + unwrap_or more 0 ≤ length buf.new) }
    ensures before { take done buf.new ≡ take done buf.old }
    ensures bytes { MatchResult result
        (λ more. Consumes (R.remaining input.old) (R.remaining input.new) (take (unwrap_or more 0) (drop done buf.new)))
        (λ _. Keeps (R.remaining input.old) (R.remaining input.new)) }
    ensures ended { IfOk result (λ more. more ≡ None → done < length buf.new → IsAtEnd (R.remaining input.new)) }
{
    match input.read(&mut buf[done..]) {
        Ok(0) => Ok(None),
        Ok(n) => Ok(Some(n)),
        Err(error) if matches!(error.kind(), ErrorKind::Interrupted) => Ok(Some(0)),
        Err(error) => Err(error),
    }
}

// Reads until the buffer is full, the input ends or a read fails: how many bytes were read. The buffer then begins with the bytes that the
// input gave, all of them where they did not fill it; and with those that it gave until then where a read failed.
pub fn read_input<R: Read>(input: &mut R, buf: &mut [u8]) -> io::Result<usize>
    ensures bound { IfOk result (λ n. n ≤ length buf.new) }
    ensures prefix { IfOk result (λ n. n ≡ length (take n buf.new)) }
    ensures kept { length buf.new ≡ length buf.old }
    ensures bytes { IfOk result (λ n. Consumes (R.remaining input.old) (R.remaining input.new) (take n buf.new)) }
    ensures whole { IfOk result (λ n. n < length buf.new → IsAtEnd (R.remaining input.new)) }
    ensures part { OnErr result ((n : ℕ) × (n ≤ length buf.new)
        × Consumes (R.remaining input.old) (R.remaining input.new) (take n buf.new)) }
{
    let mut done = 0;
    for _ in 0..MAX_READS {
        let Some(n) = read_more(input, buf, done)? else {
            return Ok(done);
        };
        done += n;
    }
    Err(io::Error::from(ErrorKind::Interrupted))
}
