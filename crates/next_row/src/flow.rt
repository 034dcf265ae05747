// One row of the table, in one pass over the states: it moves the units and sums what is left.
ghost use Rattle.next_row.specs.OneRow.{CanRound, Rounded, CanFill, Filled, CanRow, RowDone, CanPoint, PointDone};

use crate::inflow::{Inflow, arrive, weigh};
use runlength::WEIGHT_TOTAL;
use sources::Sources;

// What the row has moved so far: left is the sum of the new units, and left * 2^30 + rest the sum of all that came into their states.
#[derive(Clone, Copy)]
struct Moved {
    left: u64,
    rest: u64,
}

impl Moved {
    // The new units of state t too: what comes in, divided once and rounded down.
    fn round_down(self, into: Inflow, t: usize, next: &mut [u64]) -> Moved
        requires { CanRound into.high into.low t self.left self.rest next.old }
        ensures { Rounded into.high into.low t self.left self.rest next.old next.new result.left result.rest }
    {
        let x = into.high + into.low / WEIGHT_TOTAL;
        next[t] = x;
        Moved {
            left: self.left + x,
            rest: self.rest + into.low % WEIGHT_TOTAL,
        }
    }
}

// The new units of the states from `from` to before `stop`, each of which has one group. Inlined: most stretches are short, and with a call for
// each a table takes a sixth longer.
#[inline(always)]
fn stretch(
    lists: Sources<'_>,
    units: &[u64],
    from: usize,
    stop: usize,
    before: Moved,
    next: &mut [u64],
) -> Moved
    requires { CanFill units.now lists.sources.now lists.firsts.now lists.shares.now lists.groups.now from stop before.left before.rest next.old }
    ensures { Filled units.now lists.entry.sources.now lists.entry.firsts.now lists.entry.shares.now lists.entry.groups.now stop next.new result.left result.rest }
{
    let mut moved = before;
    let mut g = usize::from(lists.groups[from]);
    let mut first = usize::from(lists.firsts[g]);
    for t in from..stop {
        let last = usize::from(lists.firsts[g + 1]);
        let into = weigh(units, &lists.sources[first..last], lists.shares[g]);
        moved = moved.round_down(into, t, next);
        first = last;
        g += 1;
    }
    moved
}

// What one row adds to the two lists.
#[derive(Clone, Copy)]
pub struct Point {
    pub pmf: u64,
    pub survival: u64,
}

// One row: the new units from the old, which sum to `total`; the units that signal, and the sum of those that do not. Nothing is lost before
// the division, so what signals is what comes into no state.
fn make_row(lists: Sources<'_>, units: &[u64], total: u64, n: usize, next: &mut [u64]) -> Point
    requires { CanRow lists.sources.now lists.firsts.now lists.shares.now lists.groups.now lists.stops.now units.now total n next.old }
    ensures { RowDone lists.entry.sources.now lists.entry.firsts.now lists.entry.shares.now lists.entry.groups.now units.now total n next.new result.pmf result.survival }
{
    let none = Moved { left: 0, rest: 0 };
    let mut t = usize::from(lists.stops[0]);
    let mut moved = stretch(lists, units, 0, t, none, next);
    // A `while`, as each turn goes on where its stretch stops.
    while t < n {
        let into = arrive(lists, units, t);
        let here = moved.round_down(into, t, next);
        let stop = usize::from(lists.stops[t + 1]);
        moved = stretch(lists, units, t + 1, stop, here, next);
        t = stop;
    }
    let left = moved.left;
    Point {
        pmf: total - left - (moved.rest + (WEIGHT_TOTAL - 1)) / WEIGHT_TOTAL,
        survival: left,
    }
}

// The next point: the row where units are left; once none are, every later row is 0, and `next` is as it was. For the crates of this repository:
// it has a `requires`.
pub fn next_point(
    lists: Sources<'_>,
    units: &[u64],
    total: u64,
    n: usize,
    next: &mut [u64],
) -> Point
    requires { CanPoint lists.sources.now lists.firsts.now lists.shares.now lists.groups.now lists.stops.now units.now total n next.old }
    ensures { PointDone lists.entry.sources.now lists.entry.firsts.now lists.entry.shares.now lists.entry.groups.now units.now total n next.old next.new result.pmf result.survival }
{
    if total == 0 {
        return Point {
            pmf: 0,
            survival: 0,
        };
    }
    make_row(lists, units, total, n, next)
}
