// Lines of bytes, and a checksum.
ghost use Rattle.std.specs.Prelude.{◌≤◌, ◌<◌, length};

// The largest prime of 32 bits.
const MODULUS: u64 = 4294967291;

// Where the line with this index ends: behind its LF, or where the bytes end.
pub fn end_of_line(bytes: &[u8], line: usize) -> usize
    ensures { result ≤ length bytes.now }
{
    let mut ends = bytes.iter().enumerate().filter(|(_, byte)| **byte == b'\n');
    match ends.nth(line) {
        Some((i, _)) => i + 1,
        None => bytes.len(),
    }
}

// Where the last `lines` lines start.
pub fn tail(bytes: &[u8], lines: usize) -> usize
    ensures { result ≤ length bytes.now }
{
    let mut ends = bytes
        .iter()
        .enumerate()
        .rev()
        .filter(|(_, byte)| **byte == b'\n');
    match ends.nth(lines) {
        Some((i, _)) => i + 1,
        None => 0,
    }
}

// The sum with one byte more.
fn mixed(sum: u64, byte: u8) -> u64
    requires { sum < 4294967291 }
    ensures { result < 4294967291 }
{
    (sum * 257 + u64::from(byte)) % MODULUS
}

// A number that tells outputs of equal length apart: the bytes as digits of base 257, modulo a prime.
pub fn checksum(bytes: &[u8]) -> u64 {
    bytes
        .iter()
        .fold(0, |sum, byte| mixed(sum % MODULUS, *byte))
}
