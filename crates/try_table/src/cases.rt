// Lists of two rules: how many states they have; and every refusal of the table, in its order, with its nearest accepted
// neighbour.
use crate::answers;
use show::lists::Rules::{One, Slots, Two};
use show::lists::{NONE, Rules, T};
use std::io;

// A list; the weights of the zones 0, 1, 2 and 4; the horizon; how many places there are for the pmf and for the survival.
#[derive(Clone, Copy)]
pub struct Case(Rules, [u32; 4], u32, (usize, usize));

// Probability one half, one and two, in units of 2^-30.
const HALF: u32 = 536870912;

const ONE: u32 = 1073741824;

const TWO: u32 = 2147483648;

const HALVES: [u32; 4] = [0, HALF, 0, HALF];

// 1,008 states before merging and after it; 1,296 before it are too many.
pub static LARGEST: [Case; 2] = [
    Case(Two(T(3, 9, 6), T(3, 8, 12)), HALVES, 1, (1, 1)),
    Case(Two(T(3, 9, 6), T(3, 9, 12)), HALVES, 1, (1, 1)),
];

// 5, 56 and 1,001 states before merging; the last list has 1,287, too many. In the last three the second rule never holds
// without the first.
pub static MERGED: [Case; 4] = [
    Case(Two(T(2, 3, 2), T(2, 3, 6)), HALVES, 1, (1, 1)),
    Case(Two(T(4, 7, 14), T(4, 4, 2)), HALVES, 1, (1, 1)),
    Case(Two(T(5, 9, 6), T(5, 9, 2)), HALVES, 1, (1, 1)),
    Case(Two(T(6, 9, 6), T(6, 9, 2)), HALVES, 1, (1, 1)),
];

// As many states as with each rule once.
pub static TWICE: [Case; 2] = [
    Case(Two(T(2, 3, 2), T(2, 3, 2)), HALVES, 1, (1, 1)),
    Case(Two(T(4, 5, 6), T(4, 5, 6)), HALVES, 1, (1, 1)),
];

pub static REFUSALS: [Case; 20] = [
    // No rules, a rule out of bounds, a rule with no zone, too many states: 1,296 before merging.
    Case(Slots(T(2, 2, 2), T(2, 2, 2), NONE, 0), HALVES, 3, (4, 3)),
    Case(One(T(3, 2, 2)), HALVES, 3, (4, 3)),
    Case(One(T(2, 2, 0)), HALVES, 3, (4, 3)),
    Case(Two(T(3, 9, 6), T(3, 9, 12)), HALVES, 3, (4, 3)),
    // Weights one too few, right, one too many, right modulo 2^32.
    Case(One(T(2, 2, 2)), [0, ONE - 1, 0, 0], 3, (4, 3)),
    Case(One(T(2, 2, 2)), [0, ONE, 0, 0], 3, (4, 3)),
    Case(One(T(2, 2, 2)), [1, ONE, 0, 0], 3, (4, 3)),
    Case(One(T(2, 2, 2)), [TWO, TWO, ONE, 0], 3, (4, 3)),
    // The bounds of the horizon.
    Case(One(T(2, 2, 2)), HALVES, 0, (4, 3)),
    Case(One(T(2, 2, 2)), HALVES, 1, (4, 3)),
    Case(One(T(2, 2, 2)), HALVES, 65535, (65535, 65535)),
    Case(One(T(2, 2, 2)), HALVES, 65536, (65535, 65535)),
    Case(One(T(2, 2, 2)), HALVES, 4294967295, (4, 3)),
    // The room for the lists.
    Case(One(T(2, 2, 2)), HALVES, 3, (4, 3)),
    Case(One(T(2, 2, 2)), HALVES, 4, (4, 3)),
    Case(One(T(2, 2, 2)), HALVES, 3, (3, 4)),
    Case(One(T(2, 2, 2)), HALVES, 4, (3, 4)),
    // Weights before horizon, horizon before states, states before lists.
    Case(One(T(2, 2, 2)), [0, 0, 0, 0], 0, (4, 3)),
    Case(Two(T(3, 9, 6), T(3, 9, 12)), HALVES, 0, (4, 3)),
    Case(Two(T(3, 9, 6), T(3, 9, 12)), HALVES, 5, (4, 3)),
];

fn one(out: &impl Print, case: Case) -> io::Result<()> {
    let Case(rules, [w0, w1, w2, w4], horizon, places) = case;
    let (pmf, survival) = places;
    print!(out; "{rules} weights, horizon and places ")?;
    print!(out; "{w0},{w1},{w2},{w4},{horizon},{pmf},{survival}")?;
    let weights = [w0, w1, w2, 0, w4, 0, 0, 0];
    answers::table_of(out, rules.into(), weights, horizon, places)
}

pub fn run(out: &impl Print, cases: &[Case]) -> io::Result<()> {
    for case in cases {
        one(out, *case)?;
    }
    Ok(())
}
