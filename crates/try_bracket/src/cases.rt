// Short lists of chances, and every refusal of the bracket with its nearest accepted neighbour.
use crate::answers;
use std::io;

// Its name, the chances, the number of states and the percent.
#[derive(Clone, Copy)]
pub struct Case<'a>(pub &'a str, pub &'a [u64], pub u32, pub u32);

const HALF: u64 = 576460752303423488;

const ONE: u64 = 1152921504606846976;

const MOST: u64 = 18446744073709551615;

pub static SHORT: [Case; 7] = [
    Case("2^59 - 1", &[HALF - 1], 1, 50),
    Case("2^59 - 1, 1", &[HALF - 1, 1], 1, 50),
    Case("2^59", &[HALF], 1, 50),
    Case("2^59 - 2", &[HALF - 2], 1, 50),
    Case("2^59 - 3", &[HALF - 3], 1, 50),
    Case("0, 0", &[0, 0], 1024, 1),
    Case("2^60", &[ONE], 1024, 99),
];

pub static REFUSALS: [Case; 17] = [
    // The bounds of the number of states.
    Case("0 states", &[0], 0, 50),
    Case("1 state", &[0], 1, 50),
    Case("1024 states", &[0], 1024, 50),
    Case("1025 states", &[0], 1025, 50),
    Case("4294967295 states", &[0], 4294967295, 50),
    // The bounds of the percent.
    Case("0 percent", &[0], 1, 0),
    Case("1 percent", &[0], 1, 1),
    Case("99 percent", &[0], 1, 99),
    Case("100 percent", &[0], 1, 100),
    Case("4294967295 percent", &[0], 1, 4294967295),
    // The largest total, and one more; totals that 64 bits cannot hold, or only just.
    Case("2^60", &[ONE, 0], 1, 50),
    Case("2^60 and 1", &[ONE, 1], 1, 50),
    Case("2^64 - 1", &[MOST], 1, 50),
    Case("1 and 2^64 - 1", &[1, MOST], 1, 50),
    Case("2^64 - 1 and 2", &[MOST, 2], 1, 50),
    // States before percent, percent before total.
    Case("1025 states, 0 percent", &[MOST], 1025, 0),
    Case("0 percent, 2^64 - 1", &[MOST], 1, 0),
];

pub fn run(out: &impl Print, cases: &[Case]) -> io::Result<()> {
    for Case(name, pmf, states, percent) in cases {
        print!(out; "{name}")?;
        answers::bracket(out, pmf, *states, *percent)?;
    }
    Ok(())
}

// The bounds of the length.
pub fn lengths(out: &impl Print) -> io::Result<()> {
    let zeros = [0u64; 65536];
    let cases = [
        Case("an empty list", &[], 1, 50),
        Case("1 chance", &zeros[..1], 1, 50),
        Case("65535 chances", &zeros[..65535], 1, 50),
        Case("65536 chances", &zeros, 1, 50),
    ];
    run(out, &cases)
}
