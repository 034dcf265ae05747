// The groups of each state: for each zone that leads there the states that it leads from, with the zone's weight as their share.
ghost use Rattle.std.specs.Prelude.{◌≡◌};
ghost use Rattle.sources.specs.Grouping.{CanTake, Taken, CanCollect, Collected, CanZone, ZoneGrouped, CanGroupState, GroupedState, CanList, Listing};

use crate::SourceLists;
use crate::marks::mark;
use rules::{RuleList, ZONES};

// The state s as one more source at e, if its move leads to t: where the sources end then.
fn take(sources: &mut [u16], e: usize, s: usize, entry: u16, t: u16) -> usize
    requires { CanTake sources.old e s entry t }
    ensures { Taken sources.old e s entry t sources.new result }
{
    if entry == t {
        sources[e] = s as u16;
        return e + 1;
    }
    e
}

// The states that zone z leads to t, as sources from `first` on: where they end.
fn collect(moves: &[u16], n: usize, z: usize, t: u16, sources: &mut [u16], first: usize) -> usize
    requires { CanCollect moves.now n z t sources.old first }
    ensures { Collected moves.now n z t n sources.old first sources.new result }
{
    let mut e = first;
    for s in 0..n {
        e = take(sources, e, s, moves[ZONES * s + z], t);
    }
    e
}

// The sources that zone z leads to t as group g, if it has a weight and there are any: how many groups there are then.
fn group_zone(
    moves: &[u16],
    n: usize,
    z: usize,
    weight: u32,
    t: u16,
    marks: &[u16],
    lists: &mut SourceLists,
    g: usize,
) -> usize
    requires { CanZone moves.now n z weight t marks.now lists.old.sources lists.old.firsts lists.old.shares g }
    ensures grouped { ZoneGrouped moves.now n z weight t lists.old.sources lists.old.firsts lists.old.shares g lists.new.sources lists.new.firsts lists.new.shares result }
    ensures kept { lists.new.groups ≡ lists.old.groups }
{
    if weight == 0 {
        return g;
    }
    if marks[ZONES * usize::from(t) + z] == 0 {
        return g;
    }
    let end = collect(
        moves,
        n,
        z,
        t,
        &mut lists.sources,
        usize::from(lists.firsts[g]),
    );
    lists.shares[g] = weight;
    lists.firsts[g + 1] = end as u16;
    g + 1
}

// The groups of state t, from `first` on: how many groups there are then.
fn group_state(
    moves: &[u16],
    n: usize,
    weights: &[u32],
    t: u16,
    marks: &[u16],
    lists: &mut SourceLists,
    first: usize,
) -> usize
    requires { CanGroupState moves.now n weights.now t marks.now lists.old.sources lists.old.firsts lists.old.shares first }
    ensures grouped { GroupedState moves.now n weights.now t lists.old.sources lists.old.firsts lists.old.shares first lists.new.sources lists.new.firsts lists.new.shares result }
    ensures kept { lists.new.groups ≡ lists.old.groups }
{
    let mut g = first;
    for z in 0..ZONES {
        g = group_zone(moves, n, z, weights[z], t, marks, lists, g);
    }
    g
}

// The groups of all states, one state after the other.
pub(crate) fn list_groups(moves: &[u16], n: usize, weights: &[u32], lists: &mut SourceLists)
    requires { CanList moves.now n weights.now lists.old.sources lists.old.firsts lists.old.shares lists.old.groups }
    ensures { Listing moves.now n weights.now lists.new.sources lists.new.firsts lists.new.shares lists.new.groups n }
{
    let mut marks = [0u16; ZONES * RuleList::MAX_STATES];
    mark(moves, n, &mut marks);
    let mut g: usize = 0;
    for t in 0..n {
        g = group_state(moves, n, weights, t as u16, &marks, lists, g);
        lists.groups[t + 1] = g as u16;
    }
}
