// The zone of a reading on a chart.
ghost use Rattle.std.specs.Prelude.{◌≡◌, ◌≤◌, ◌-ℤ◌};
ghost use Rattle.rules.specs.Check.{within};
ghost use Rattle.monitor.specs.Zone.{zone_of, zone_at, band, min_sigma, max_sigma};

use crate::chart::Chart;
use rules::Refusal;

// The zones by number.
pub const ZONE_S: u32 = 0;

pub const ZONE_A1: u32 = 1;

pub const ZONE_B1: u32 = 2;

pub const ZONE_C1: u32 = 3;

pub const ZONE_C2: u32 = 4;

pub const ZONE_B2: u32 = 5;

pub const ZONE_A2: u32 = 6;

pub const ZONE_C0: u32 = 7;

// The band of a distance from the centre: within one sigma, two, three, or outside.
fn band_of(sigma: u32, distance: u64, one: u32, two: u32, three: u32) -> u32
    requires { sigma ≤ max_sigma }
    ensures { result ≡ band sigma distance one two three }
{
    let width = u64::from(sigma);
    if distance <= width {
        return one;
    }
    if distance <= 2 * width {
        return two;
    }
    if distance <= 3 * width {
        return three;
    }
    ZONE_S
}

impl Chart {
    // Whether sigma is within its bounds.
    pub fn sigma_fits(self) -> bool
        ensures { result ≡ within min_sigma max_sigma self.sigma }
    {
        rules::within(Chart::MIN_SIGMA, Chart::MAX_SIGMA, self.sigma)
    }

    // The zone of a reading where sigma is within its bounds. For the crates of this repository.
    #[tactic(auto, using(crate::specs::ZoneLaws::offset_above))]
    pub fn zone_at(self, reading: i32) -> u32
        requires { self.sigma ≤ max_sigma }
        ensures { result ≡ zone_at (reading -ℤ self.centre) self.sigma }
    {
        let offset = i64::from(reading) - i64::from(self.centre);
        let distance = offset.unsigned_abs();
        if offset < 0 {
            return band_of(self.sigma, distance, ZONE_C2, ZONE_B2, ZONE_A2);
        }
        if 0 < offset {
            return band_of(self.sigma, distance, ZONE_C1, ZONE_B1, ZONE_A1);
        }
        ZONE_C0
    }

    // The zone of a reading: refused by 1 where sigma is out of bounds.
    pub fn zone_of(self, reading: i32) -> Result<u32, Refusal>
        ensures { result ≡ zone_of reading self.centre self.sigma }
    {
        if !self.sigma_fits() {
            return Err(Refusal::Sigma);
        }
        Ok(self.zone_at(reading))
    }
}
