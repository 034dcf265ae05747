// A program: a text on its input, its report on its output.
ghost use Rattle.std.specs.Prelude.{ℕ, ◌≡◌, ◌≤◌, OnOk, length, take};
ghost use Rattle.std.specs.Io.KnownBytes.{Appends, Consumes, IsAtEnd, Keeps};
ghost use Rattle.output.specs.Failures.{OnInput, OnOutput};

use crate::failure::Failure;
use crate::input::read_input;
use crate::written::lines;
use std::convert::AsSlice;
use std::io::{Read, Write};
use text::MAX_TEXT;

// Reads the text, makes its report in the buffer and writes it: the first bytes there, as many as the report answers. One byte more than the
// longest text is read, so that a longer one is told. Where a read fails nothing is written. For the programs of this repository.
pub fn run<R: Read, W: Write, B: AsSlice<u8>, F: FnOnce(&[u8], &mut B) -> usize>(
    input: &mut R,
    out: &mut W,
    buf: &mut B,
    report: F,
) -> Result<(), Failure>
    requires callable { F.IsAlwaysCallable report }
    requires bound { (t : _) (b : _) (n : ℕ) (b' : _) → F.post report t b n b' → n ≤ length (B.items b'.now) }
    ensures all { OnOk result ((t : _) × (b : _) × (n : ℕ) × (b' : _) × F.post report t b n b' × (b.now ≡ buf.old) × (b'.now ≡ buf.new)
        × Consumes (R.remaining input.old) (R.remaining input.new) t.now
        × (length t.now ≤ MAX_TEXT → IsAtEnd (R.remaining input.new))
        × Appends (W.contents out.old) (W.contents out.new) (take n (B.items b'.now))) }
    ensures part { OnOutput result ((t : _) × (b : _) × (n : ℕ) × (b' : _) × (k : ℕ) × F.post report t b n b' × (b.now ≡ buf.old) × (b'.now ≡ buf.new)
        × Consumes (R.remaining input.old) (R.remaining input.new) t.now
        × Appends (W.contents out.old) (W.contents out.new) (take k (take n (B.items b'.now)))) }
    ensures none { OnInput result (Keeps (W.contents out.old) (W.contents out.new) × (buf.new ≡ buf.old)) }
{
    let mut text = [0u8; MAX_TEXT + 1];
    let n = read_input(input, &mut text).map_err(Failure::Input)?;
    let m = report(&text[..n], buf);
    lines(out, &buf.as_slice()[..m]).map_err(Failure::Output)
}
