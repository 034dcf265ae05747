// The figures of source 004 (Vardeman and Morris): the probability of a signal at a point, and the mean run length, of charts with one
// rule and of the four Western Electric rules.
//
// How the weights were made: from the normal law at the limits that the source prints, which it has rounded to two decimals. The shifted
// mean signals below -5.24 or above 0.76; a p chart where all five of a sample are below -1.17 or above 1.17, and, shifted, below -2.17 or
// above 0.17. The probability of S times 2^30 is rounded to the nearest whole number, and the rest is in one zone that no rule looks at.
use crate::compare::Tally;
use crate::decimal::Decimal;
use crate::figures;
use rules::{RuleList, ZONES};
use show::IN_CONTROL;
use show::lists::{T, list_of};
use std::{fmt, io};

#[derive(Clone, Copy)]
enum Rules {
    // A point in S.
    OutsideLimits,
    WesternElectric,
}

// Of the four rules no probability is printed. The horizon goes by the mean that is given for it.
struct Example {
    name: &'static str,
    rules: Rules,
    weights: [u32; ZONES],
    probability: Option<Decimal>,
    mean: Decimal,
    horizon_mean: u64,
}

static EXAMPLES: [Example; 5] = [
    Example {
        name: "004 example 15-1 in control",
        rules: Rules::OutsideLimits,
        weights: IN_CONTROL,
        probability: Some(Decimal {
            units: 27,
            places: 4,
        }),
        mean: Decimal {
            units: 370,
            places: 0,
        },
        horizon_mean: 370,
    },
    Example {
        name: "004 example 15-1 shifted",
        rules: Rules::OutsideLimits,
        weights: [240118063, 0, 0, 833623761, 0, 0, 0, 0],
        probability: Some(Decimal {
            units: 2236,
            places: 4,
        }),
        mean: Decimal {
            units: 45,
            places: 1,
        },
        horizon_mean: 5,
    },
    Example {
        name: "004 Western Electric in control",
        rules: Rules::WesternElectric,
        weights: IN_CONTROL,
        probability: None,
        mean: Decimal {
            units: 92,
            places: 0,
        },
        horizon_mean: 92,
    },
    Example {
        name: "004 example 15-2 in control",
        rules: Rules::OutsideLimits,
        weights: [891221, 0, 0, 1072850603, 0, 0, 0, 0],
        probability: Some(Decimal {
            units: 83,
            places: 5,
        }),
        mean: Decimal {
            units: 1205,
            places: 0,
        },
        horizon_mean: 1205,
    },
    Example {
        name: "004 example 15-2 shifted",
        rules: Rules::OutsideLimits,
        weights: [19271090, 0, 0, 1054470734, 0, 0, 0, 0],
        probability: Some(Decimal {
            units: 179,
            places: 4,
        }),
        mean: Decimal {
            units: 56,
            places: 0,
        },
        horizon_mean: 56,
    },
];

impl Rules {
    fn list(self) -> RuleList {
        match self {
            Rules::OutsideLimits => list_of(&[T(1, 1, 1)]),
            Rules::WesternElectric => RuleList::western_electric(),
        }
    }
}

impl fmt::Display for Example {
    fn fmt<W: fmt::Write>(&self, f: &mut fmt::Formatter<W>) -> fmt::Result {
        write!(f, "{}", self.name)
    }
}

fn lines(out: &impl Print, tally: &mut Tally, example: &Example) -> io::Result<()> {
    let horizon = figures::horizon_for(example.horizon_mean);
    let f = figures::of_chart(example.rules.list(), example.weights, horizon);
    if let Some(p) = example.probability {
        tally.figure(
            out,
            example,
            "probability",
            f.map(|f| f.first.in_places(p.places)),
            p,
        )?;
    }
    let mean = example.mean;
    tally.figure(
        out,
        example,
        "arl",
        f.map(|f| f.mean.in_places(mean.places)),
        mean,
    )
}

pub fn examples(out: &impl Print, tally: &mut Tally) -> io::Result<()> {
    for example in &EXAMPLES {
        lines(out, tally, example)?;
    }
    Ok(())
}
