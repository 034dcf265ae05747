// A decimal number at an offset of a text.
ghost use Rattle.std.specs.Prelude.{◌≡◌, ◌≤◌, drop};
ghost use Rattle.rules.specs.Bounds.{max_number};
ghost use Rattle.decimal.specs.Number.{Seen, digits_from, number_at, field_at};

use crate::word::past;
use rules::MAX_NUMBER;

// The largest number that is read.
const LARGEST: u64 = MAX_NUMBER as u64;

// The byte at i, or 0 past the end.
pub fn byte_at(text: &[u8], i: usize) -> u8
    ensures { Seen text.now i result }
{
    if i < text.len() { text[i] } else { 0 }
}

// The number and the offset past it: the digits from `at` on, behind those that gave `before`.
fn digits(text: &[u8], at: usize, before: u64) -> Option<(u32, usize)>
    requires { before ≤ max_number }
    ensures { result ≡ digits_from (drop at text.now) before at }
{
    let mut i = at;
    let mut v = before;
    while i < text.len() {
        let b = text[i];
        if b < b'0' {
            return Some((v as u32, i));
        }
        if b > b'9' {
            return Some((v as u32, i));
        }
        v = v * 10 + (u64::from(b) - 48);
        if v > LARGEST {
            return None;
        }
        i += 1;
    }
    Some((v as u32, i))
}

// The number at `at` and the offset past it: no sign, no needless zero, within 32 bits.
pub fn number_at(text: &[u8], at: usize) -> Option<(u32, usize)>
    ensures { result ≡ number_at text.now at }
{
    let b = byte_at(text, at);
    if b < b'0' {
        return None;
    }
    if b > b'9' {
        return None;
    }
    if b == b'0' {
        return Some((0, at + 1));
    }
    digits(text, at + 1, u64::from(b) - 48)
}

// The number behind a comma at `at`.
pub fn field(text: &[u8], at: usize) -> Option<(u32, usize)>
    ensures { result ≡ field_at text.now at }
{
    number_at(text, past(text, at, b",")?)
}
