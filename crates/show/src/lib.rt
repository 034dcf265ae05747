// What the test programs share: the rule lists and the weights of their cases, and how a refusal is printed.
#![tactic(auto)]

use rules::{Reason, ZONES};
use std::io;

pub mod lists;

// The normal area of each zone in units of 2^-30, to the nearest; S is what is missing from 2^30, and C0 has none.
pub const IN_CONTROL: [u32; ZONES] = [
    2898884, 22978326, 145927014, 366516130, 366516130, 145927014, 22978326, 0,
];

// Half the points in zone 1, half in zone 4.
pub const HALVES: [u32; ZONES] = [0, 536870912, 0, 0, 536870912, 0, 0, 0];

// A refusal, or any number and place: 0 and 0 where nothing is refused.
pub fn refusal(out: &impl Print, r: impl Reason) -> io::Result<()> {
    let (number, place) = r.told();
    println!(out; " refused {number} place {place}")
}
