// The zones' weights of source 001's twelve settings.
//
// How they were made: in control the source gives the zones S, A, B, C the probabilities 0.0027, 0.0428, 0.2718, 0.6827, so the three
// limits are the chi-square quantiles with 0.0027, 0.0455 and 0.3173 above them. For a ratio r of standard deviations and a non-centrality
// lambda, a zone's probability is that of r^2 times a non-central chi-square number between its limits. The probability times 2^30 is
// rounded to the nearest whole number, and what is missing from 2^30 in all is added to the largest weight.
use crate::decimal::Decimal;
use rules::ZONES;
use std::fmt;

// Degrees of freedom; r and lambda in tenths; the weights of the chart's four zones.
pub struct Setting(u64, u64, u64, [u32; 4]);

pub static SETTINGS: [Setting; 12] = [
    Setting(3, 10, 0, [2899103, 45956150, 291843028, 733043543]),
    Setting(3, 10, 20, [29350697, 165120490, 421841363, 457429274]),
    Setting(3, 10, 40, [87185275, 281630588, 432725164, 272200797]),
    Setting(3, 15, 0, [105496005, 229751943, 380708684, 357785192]),
    Setting(3, 15, 20, [313439643, 297499752, 289511436, 173290993]),
    Setting(3, 15, 40, [516368876, 280941430, 193894538, 82536980]),
    Setting(5, 10, 0, [2899103, 45956150, 291843028, 733043543]),
    Setting(5, 10, 20, [20548945, 137366532, 411661871, 504164476]),
    Setting(5, 10, 40, [59875134, 238397293, 445256540, 330212857]),
    Setting(5, 15, 0, [162437842, 280400809, 371935777, 258967396]),
    Setting(5, 15, 20, [355525551, 312150240, 273644564, 132421469]),
    Setting(5, 15, 40, [539591754, 283642970, 184031169, 66475931]),
];

impl Setting {
    // The four zones stand in the places of S, A1, B1 and C1.
    pub fn weights(&self) -> [u32; ZONES] {
        let Setting(_, _, _, [s, a, b, c]) = *self;
        [s, a, b, c, 0, 0, 0, 0]
    }
}

impl fmt::Display for Setting {
    fn fmt<W: fmt::Write>(&self, f: &mut fmt::Formatter<W>) -> fmt::Result {
        let Setting(freedom, r, lambda, _) = *self;
        let r = Decimal {
            units: r,
            places: 1,
        };
        let lambda = Decimal {
            units: lambda,
            places: 1,
        };
        write!(f, "df {freedom} r {r} lambda {lambda}")
    }
}
