// Every area of the table, beside the printed one.
ghost use Rattle.std.specs.Prelude.{◌≤◌, ◌<◌};

use crate::printed::PRINTED;
use shift::area_at;
use std::io;

// In units of 10^-12: probability one and one half.
const ONE: u64 = 1000000000000;

const HALF: u64 = 500000000000;

// A unit of 10^-12 is 2^18 / 5^12 of ours, which are 2^-30.
const TWO_18: u128 = 262144;

const FIVE_12: u128 = 244140625;

// The printed area from 0 to z, which is one half less than the printed chance.
fn printed_area(printed: u64) -> u64
    ensures { result < 1000000000000 }
{
    printed.saturating_sub(HALF) % ONE
}

// How far an entry is off what is printed, FIVE_12 to a unit of ours.
fn off(z: usize, printed: u64) -> u128
    requires { z ≤ 450 }
{
    let ours = u128::from(area_at(z)) * FIVE_12;
    let theirs = u128::from(printed_area(printed)) * TWO_18;
    ours.abs_diff(theirs)
}

// How many entries are off by at most so much.
fn within(most: u128) -> usize {
    PRINTED
        .iter()
        .enumerate()
        .filter(|(z, printed)| off(*z, **printed) <= most)
        .count()
}

// Each entry, and then how many are met: the nearest to an area that rounds to what is printed, so at most half a unit of ours and half of the
// printed last place off. What is printed, rounded once more to our unit, is the entry where it is at most half a unit off.
pub fn areas(out: &impl Print) -> io::Result<()> {
    for z in 0..PRINTED.len() {
        println!(out; "area,{z},{}", area_at(z))?;
    }
    let met = within((FIVE_12 + TWO_18) / 2);
    let ours = within(FIVE_12 / 2);
    println!(out;
        "of the printed table's 451 areas are met: {met}, and rounded to our unit are ours: {ours}"
    )
}
