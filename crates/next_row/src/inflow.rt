// What comes into a state in one point: the units of a group's sources are added first, and their sum is multiplied once.
ghost use Rattle.std.specs.Prelude.{◌≡◌, ◌+◌, sum_by};
ghost use Rattle.runlength.specs.Sum.{at};
ghost use Rattle.next_row.specs.Arrivals.{CanGather, CanWeigh, Weighed, Flows, Arrived};

use runlength::WEIGHT_TOTAL;
use sources::Sources;

// The units of the sources of a group together, two at a time: with one at a time a table takes a third longer.
fn gather(units: &[u64], group: &[u16]) -> u64
    requires { CanGather units.now group.now }
    ensures { result ≡ sum_by (at units.now) group.now }
{
    match group {
        [] => 0,
        [s] => units[usize::from(*s)],
        [s, t, rest @ ..] => units[usize::from(*s)] + units[usize::from(*t)] + gather(units, rest),
    }
}

// What comes into a state, in two words: high * 2^30 + low.
#[derive(Clone, Copy)]
pub struct Inflow {
    pub high: u64,
    pub low: u64,
}

// What comes in by a group, whose sources send the share of their units.
pub(crate) fn weigh(units: &[u64], group: &[u16], share: u32) -> Inflow
    requires { CanWeigh units.now group.now share }
    ensures { Weighed units.now group.now share result.high result.low }
{
    let sum = gather(units, group);
    let w = u64::from(share);
    let part = sum % WEIGHT_TOTAL * w;
    Inflow {
        high: sum / WEIGHT_TOTAL * w,
        low: part,
    }
}

// What comes into state t by all its groups.
pub(crate) fn arrive(lists: Sources<'_>, units: &[u64], t: usize) -> Inflow
    requires { Flows units.now lists.sources.now lists.firsts.now lists.shares.now lists.groups.now (t + 1) }
    ensures { Arrived units.now lists.entry.sources.now lists.entry.firsts.now lists.entry.shares.now lists.entry.groups.now t result.high result.low }
{
    let begin = usize::from(lists.groups[t]);
    let end = usize::from(lists.groups[t + 1]);
    let mut high: u64 = 0;
    let mut low: u64 = 0;
    for g in begin..end {
        let first = usize::from(lists.firsts[g]);
        let last = usize::from(lists.firsts[g + 1]);
        let by = weigh(units, &lists.sources[first..last], lists.shares[g]);
        high += by.high;
        low += by.low;
    }
    Inflow { high, low }
}
