// Tables 1 to 4 of source 001 (Kim and Cho): mean run length and quartiles of a chart for the mean and the variance together, whose
// statistic follows a chi-square law.
use crate::compare::Tally;
use crate::decimal::Decimal;
use crate::figures;
use crate::weights001::{SETTINGS, Setting};
use show::lists::{T, list_of};
use std::{fmt, io};

// The mean in hundredths, the first quartile, the median, the third quartile.
#[derive(Clone, Copy)]
struct Published(u64, u64, u64, u64);

// The rule is added to R1: A stands in the place of A1, and B in that of B1. A figure is published for each setting.
struct Table {
    name: &'static str,
    added: T,
    published: [Published; 12],
}

static TABLES: [Table; 4] = [
    Table {
        name: "001 table 1 R1+R2",
        added: T(2, 3, 2),
        published: [
            Published(16660, 49, 116, 230),
            Published(1641, 6, 12, 22),
            Published(623, 3, 5, 8),
            Published(645, 3, 5, 9),
            Published(270, 1, 2, 3),
            Published(183, 1, 2, 2),
            Published(16658, 49, 116, 230),
            Published(2291, 7, 16, 31),
            Published(853, 3, 6, 11),
            Published(439, 2, 3, 6),
            Published(241, 1, 2, 3),
            Published(176, 1, 1, 2),
        ],
    },
    Table {
        name: "001 table 2 R1+R3",
        added: T(4, 5, 6),
        published: [
            Published(5329, 17, 38, 73),
            Published(975, 5, 7, 13),
            Published(512, 4, 5, 6),
            Published(566, 3, 5, 7),
            Published(286, 1, 3, 4),
            Published(197, 1, 2, 3),
            Published(5328, 17, 38, 73),
            Published(1206, 5, 9, 16),
            Published(619, 4, 5, 8),
            Published(419, 2, 4, 5),
            Published(259, 1, 2, 4),
            Published(190, 1, 1, 2),
        ],
    },
    Table {
        name: "001 table 3 R1+R4",
        added: T(2, 2, 2),
        published: [
            Published(22446, 65, 156, 311),
            Published(2091, 7, 15, 29),
            Published(737, 3, 5, 10),
            Published(736, 3, 5, 10),
            Published(284, 1, 2, 4),
            Published(187, 1, 2, 2),
            Published(22442, 65, 156, 311),
            Published(2972, 9, 21, 41),
            Published(1041, 4, 7, 14),
            Published(487, 2, 4, 6),
            Published(252, 1, 2, 3),
            Published(179, 1, 1, 2),
        ],
    },
    Table {
        name: "001 table 4 R1+R5",
        added: T(5, 5, 6),
        published: [
            Published(20758, 61, 145, 287),
            Published(1977, 7, 14, 27),
            Published(761, 4, 6, 10),
            Published(797, 3, 6, 11),
            Published(317, 1, 3, 5),
            Published(204, 1, 2, 3),
            Published(20754, 61, 145, 287),
            Published(2715, 9, 20, 37),
            Published(1018, 5, 8, 13),
            Published(536, 2, 5, 7),
            Published(282, 1, 2, 4),
            Published(196, 1, 1, 2),
        ],
    },
];

// One setting of a table.
#[derive(Clone, Copy)]
struct Chart<'a> {
    table: &'a Table,
    setting: &'a Setting,
}

impl fmt::Display for Chart<'_> {
    fn fmt<W: fmt::Write>(&self, f: &mut fmt::Formatter<W>) -> fmt::Result {
        write!(f, "{} {}", self.table.name, self.setting)
    }
}

fn lines(
    out: &impl Print,
    tally: &mut Tally,
    chart: &Chart,
    published: Published,
) -> io::Result<()> {
    let Published(mean, quartile_1, median, quartile_3) = published;
    let list = list_of(&[T(1, 1, 1), chart.table.added]);
    let weights = chart.setting.weights();
    let f = figures::of_chart(list, weights, figures::horizon_for(mean / 100));
    let hundredths = Decimal {
        units: mean,
        places: 2,
    };
    let figures = [
        ("arl", f.map(|f| f.mean.in_places(2)), hundredths),
        (
            "q1",
            f.and_then(|f| f.quartile_1),
            Decimal::whole(quartile_1),
        ),
        ("median", f.and_then(|f| f.median), Decimal::whole(median)),
        (
            "q3",
            f.and_then(|f| f.quartile_3),
            Decimal::whole(quartile_3),
        ),
    ];
    for (kind, ours, published) in figures {
        tally.figure(out, chart, kind, ours, published)?;
    }
    Ok(())
}

pub fn tables(out: &impl Print, tally: &mut Tally) -> io::Result<()> {
    for table in &TABLES {
        for (setting, published) in SETTINGS.iter().zip(&table.published) {
            lines(out, tally, &Chart { table, setting }, *published)?;
        }
    }
    Ok(())
}
