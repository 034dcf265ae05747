// Numbers with a whole part and a fraction: rounded to decimal places, and printed with them.
ghost use Rattle.std.specs.Prelude.{◌≤◌};

use runlength::UNITS_PER_ONE;
use std::fmt;

// The fraction is in units of 2^-60.
#[derive(Clone, Copy)]
pub struct Exact {
    pub whole: u64,
    pub fraction: u64,
}

// So many units of the last of up to 5 decimal places.
#[derive(Clone, Copy)]
pub struct Decimal {
    pub units: u64,
    pub places: u32,
}

// 10 to a power up to 5.
fn ten_to(power: u32) -> u64
    ensures positive { 1 ≤ result }
    ensures bound { result ≤ 100000 }
{
    10u64.pow(power.min(5))
}

impl Exact {
    // No run length compared here, in any of its decimal units, comes near it.
    const WHOLE_LIMIT: u64 = 1 << 32;

    // The number in units of the last of so many decimal places, to the nearest; a half goes up.
    pub fn in_places(self, places: u32) -> u64 {
        let one = u128::from(UNITS_PER_ONE);
        let exact = u128::from(self.whole % Exact::WHOLE_LIMIT) * one + u128::from(self.fraction);
        let scaled = exact * u128::from(ten_to(places));
        ((scaled + one / 2) / one) as u64
    }
}

impl Decimal {
    pub fn whole(units: u64) -> Decimal {
        Decimal { units, places: 0 }
    }
}

impl fmt::Display for Decimal {
    fn fmt<W: fmt::Write>(&self, f: &mut fmt::Formatter<W>) -> fmt::Result {
        let one = ten_to(self.places);
        let whole = self.units / one;
        if self.places == 0 {
            return write!(f, "{whole}");
        }
        write!(
            f,
            "{whole}.{:0width$}",
            self.units % one,
            width = self.places as usize
        )
    }
}
