// The chain of a rule list: its states explored and merged, and their moves.
#![tactic(auto)]

ghost use Rattle.std.specs.Prelude.{◌≡◌, ◌*◌, Ok, length};
ghost use Rattle.rules.specs.Bounds.{zone_count, max_states};
ghost use Rattle.rules.specs.Check.{active_rules, check_of};
ghost use Rattle.chain.specs.ChainMade.{ChainMade};
ghost use Rattle.chain.specs.KeepsMoves.{KeepsMoves};

use rules::{Refusal, RuleList, ZONES};

// The chain of rules that are accepted: 10, which counts before merging, with the list as it was; or the number of states that differ, with
// their moves in the list. For the crates of this repository: it has a `requires`.
pub fn chain_moves(list: RuleList, moves: &mut [u16]) -> Result<usize, Refusal>
    requires list_value { check_of list ≡ Ok tt }
    requires moves_len { length moves.old ≡ zone_count * max_states }
    ensures made { ChainMade (active_rules list) moves.new result }
    ensures kept { KeepsMoves moves.old moves.new result }
{
    let mut found = [0u64; RuleList::MAX_STATES];
    let mut explored = [0u16; ZONES * RuleList::MAX_STATES];
    let n = states::explore(list, &mut found, &mut explored);
    if n > RuleList::MAX_STATES {
        return Err(Refusal::States(0));
    }
    let count = merge::merge(&explored, n, moves);
    Ok(count)
}
