// Table 1 of source 002 (Trip and Does): the mean run length in control of the Shewhart chart with rules added, nine points in a row
// among them.
use crate::compare::Tally;
use crate::decimal::Decimal;
use crate::figures;
use show::IN_CONTROL;
use show::lists::{T, list_of, with};
use std::{fmt, io};

// A rule for each side of the centre line.
struct Added {
    number: u32,
    below: T,
    above: T,
}

const R2: Added = Added {
    number: 2,
    below: T(2, 3, 64),
    above: T(2, 3, 2),
};

const R3: Added = Added {
    number: 3,
    below: T(4, 5, 96),
    above: T(4, 5, 6),
};

const R4: Added = Added {
    number: 4,
    below: T(9, 9, 112),
    above: T(9, 9, 14),
};

// What is added to R1, and the published mean in units of 0.0001.
struct Chart(&'static [Added], u64);

static CHARTS: [Chart; 8] = [
    Chart(&[], 3703794),
    Chart(&[R2], 2254325),
    Chart(&[R3], 1660509),
    Chart(&[R4], 2166891),
    Chart(&[R2, R3], 1328908),
    Chart(&[R2, R4], 1587345),
    Chart(&[R3, R4], 1301834),
    Chart(&[R2, R3, R4], 1090479),
];

impl fmt::Display for Chart {
    fn fmt<W: fmt::Write>(&self, f: &mut fmt::Formatter<W>) -> fmt::Result {
        write!(f, "002 table 1 R1")?;
        for added in self.0 {
            write!(f, "+R{}", added.number)?;
        }
        Ok(())
    }
}

fn line(out: &impl Print, tally: &mut Tally, chart: &Chart) -> io::Result<()> {
    let Chart(rules, published) = chart;
    let mut list = list_of(&[T(1, 1, 1)]);
    for added in *rules {
        list = with(with(list, added.below), added.above);
    }
    let mean = Decimal {
        units: *published,
        places: 4,
    };
    let f = figures::of_chart(list, IN_CONTROL, figures::horizon_for(mean.units / 10000));
    tally.figure(out, chart, "arl", f.map(|f| f.mean.in_places(4)), mean)
}

pub fn table(out: &impl Print, tally: &mut Tally) -> io::Result<()> {
    for chart in &CHARTS {
        line(out, tally, chart)?;
    }
    Ok(())
}
