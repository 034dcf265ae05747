// A signed decimal number at an offset of a text: kept as an unsigned one, 2^31 higher, and given back.
ghost use Rattle.std.specs.Prelude.{◌≡◌, ◌-◌, ◌<◌, ◌≤◌, pos, negsuc};
ghost use Rattle.decimal.specs.Decimal.{max_positive, max_negative};
ghost use Rattle.decimal.specs.Signed.{signed_at, signed_field_at, raised_of, lowered};

use crate::number::{byte_at, number_at};
use crate::word::past;

// 2^31: by how much a signed number is raised, and the size of the least one.
const RAISE: u32 = 2147483648;

fn positive(n: u32) -> i32
    requires { n ≤ max_positive }
    ensures { result ≡ pos n }
{
    n as i32
}

// Minus n.
fn negative(n: u32) -> i32
    requires { (0 < n) × (n ≤ max_negative) }
    ensures { result ≡ negsuc (n - 1) }
{
    let m = positive(n - 1);
    -1 - m
}

// The signed number that was raised to n.
pub fn signed_value(n: u32) -> i32
    ensures { result ≡ lowered n }
{
    if n < RAISE {
        return negative(RAISE - n);
    }
    positive(n - RAISE)
}

// The signed number at `at`, raised: a minus never stands before 0.
fn signed_at(text: &[u8], at: usize) -> Option<(u32, usize)>
    ensures { result ≡ raised_of (signed_at text.now at) }
{
    if byte_at(text, at) == b'-' {
        let (n, e) = number_at(text, at + 1)?;
        if n == 0 {
            return None;
        }
        if n > RAISE {
            return None;
        }
        Some((RAISE - n, e))
    } else {
        let (n, e) = number_at(text, at)?;
        if n >= RAISE {
            return None;
        }
        Some((RAISE + n, e))
    }
}

// The signed number behind a comma at `at`, raised.
pub fn signed_field(text: &[u8], at: usize) -> Option<(u32, usize)>
    ensures { result ≡ raised_of (signed_field_at text.now at) }
{
    signed_at(text, past(text, at, b",")?)
}
