// Where the units of each row come from: for each state the states that lead to it, in groups of one share each. Made once, for all rows.
#![tactic(auto)]

mod groups;
mod marks;
mod stops;
mod zones;

ghost use Rattle.std.specs.Prelude.{◌*◌, ◌≤◌, ◌≡◌};
ghost use Rattle.rules.specs.Bounds.{zone_count, max_states};
ghost use Rattle.sources.specs.Sources.{NoSources, Lent, CanListSources, SourcesListed};

use groups::list_groups;
use rules::{RuleList, ZONES};
use stops::list_stops;
use zones::join;

// Where the units of a row come from, for all rows: the sources of group g stand from firsts[g] to before firsts[g + 1], each with the share
// shares[g]; the groups of state t are those from groups[t] to before groups[t + 1].
#[derive(Drop)]
pub struct SourceLists {
    // the states that units come from, one group after the other
    pub sources: [u16; ZONES * RuleList::MAX_STATES],
    // where each group's sources begin, and then where the last group's end
    pub firsts: [u16; ZONES * RuleList::MAX_STATES + 1],
    // the weight by which each group sends its units
    pub shares: [u32; ZONES * RuleList::MAX_STATES],
    // where each state's groups begin, and then where the last state's end
    pub groups: [u16; RuleList::MAX_STATES + 1],
    // for each state t the state that stops its stretch: from t to before it each state has one group
    pub stops: [u16; RuleList::MAX_STATES + 1],
}

impl SourceLists {
    // Lists of no sources, to be filled by `list_sources`.
    pub fn empty() -> SourceLists
        ensures { NoSources result.sources result.firsts result.shares result.groups result.stops }
    {
        SourceLists {
            sources: [0; ZONES * RuleList::MAX_STATES],
            firsts: [0; ZONES * RuleList::MAX_STATES + 1],
            shares: [0; ZONES * RuleList::MAX_STATES],
            groups: [0; RuleList::MAX_STATES + 1],
            stops: [0; RuleList::MAX_STATES + 1],
        }
    }

    // The lists, lent to the rows.
    pub fn lend(&self) -> Sources<'_>
        ensures { let l = self.now in Lent l.sources l.firsts l.shares l.groups l.stops result.sources.now result.firsts.now result.shares.now result.groups.now result.stops.now }
    {
        Sources {
            sources: &self.sources,
            firsts: &self.firsts,
            shares: &self.shares,
            groups: &self.groups,
            stops: &self.stops,
        }
    }
}

// The lists of `SourceLists` as they are lent to the rows, of any length.
#[derive(Clone, Copy)]
pub struct Sources<'a> {
    pub sources: &'a [u16],
    pub firsts: &'a [u16],
    pub shares: &'a [u32],
    pub groups: &'a [u16],
    pub stops: &'a [u16],
}

// The lists of the n states that `moves` gives: state s by zone z at ZONES * s + z, and any entry of n or more a signal. All lists are 0 before.
// They are lent and not handed out: a copy of them would double the stack that a table takes. For the crates of this repository: it has a
// `requires`.
pub fn list_sources(moves: &[u16], n: usize, weights: &[u32], lists: &mut SourceLists)
    requires { CanListSources moves.now n weights.now lists.old.sources lists.old.firsts lists.old.shares lists.old.groups lists.old.stops }
    ensures { SourcesListed moves.now n weights.now lists.new.sources lists.new.firsts lists.new.shares lists.new.groups lists.new.stops }
{
    let mut joined = [0u32; ZONES];
    join(moves, n, weights, &mut joined);
    list_groups(moves, n, &joined, lists);
    list_stops(&lists.groups, n, &mut lists.stops);
}
