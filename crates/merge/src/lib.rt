// The states of a chart merged where they do not differ: where every continuation first signals at the same point from both.
#![tactic(auto)]

ghost use Rattle.std.specs.Prelude.{◌*◌, ◌++◌, ◌≡◌, drop};
ghost use Rattle.rules.specs.Bounds.{zone_count};
ghost use Rattle.merge.specs.Merge.{merged_count, merged_moves, Mergeable};

use classes::Classes;
use rounds::find_leaders;

mod classes;
mod rounds;

// How many of the n states differ whose moves are given: state s by zone z at ZONES * s + z, and any entry of n or more a signal. The moves of
// those that differ stand in front of `merged` in the same way, with MAX_STATES for a signal, and the places beyond are kept. For the crates
// of this repository: it has a `requires`.
pub fn merge(moves: &[u16], n: usize, merged: &mut [u16]) -> usize
    requires { Mergeable n moves.now merged.old }
    ensures value { result ≡ merged_count n moves.now }
    ensures merged_after { merged.new
        ≡ merged_moves n moves.now ++ drop (zone_count * merged_count n moves.now) merged.old }
{
    let leaders = find_leaders(moves, n);
    let classes = Classes::number(&leaders[..n]);
    classes.carry(moves, n, merged);
    classes.count
}
