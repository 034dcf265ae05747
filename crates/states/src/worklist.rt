// The states of a rule list: all that are met from the empty state with no signal, and the move of each by each zone.
ghost use Rattle.std.specs.Prelude.{◌≡◌, ◌==◌, MatchOption, position};
ghost use Rattle.rules.specs.Check.{active_rules};
ghost use Rattle.states.specs.Automata.{state_automaton};
ghost use Rattle.states.specs.Explore.{Explorable, Explored, Visitable, Visited, Exceeds};

use rules::{RuleList, ZONES};
use window::Move;

// Where a state stands among those found.
fn index_of(found: &[u64], state: u64) -> Option<usize>
    ensures { result ≡ position (λ s. s == state) found.now }
{
    found.iter().position(|s| *s == state)
}

// One turn: the move k, of state k / ZONES by zone k % ZONES. The number of states after it, None for too many.
fn visit(list: RuleList, found: &mut [u64], moves: &mut [u16], n: usize, k: usize) -> Option<usize>
    requires { Visitable list found.old moves.old n k }
    ensures { let a = state_automaton (active_rules list) in
        MatchOption result (Exceeds a found.old moves.old n k)
        (Visited a found.old moves.old found.new moves.new n k) }
{
    let state = found[k / ZONES];
    let zone = (k % ZONES) as u32;
    match window::move_of(list, state, zone) {
        Move::Signal(_) => {
            moves[k] = RuleList::MAX_STATES as u16;
            Some(n)
        }
        Move::Quiet(next) => match index_of(&found[..n], next) {
            Some(index) => {
                moves[k] = index as u16;
                Some(n)
            }
            None if n < RuleList::MAX_STATES => {
                moves[k] = n as u16;
                found[n] = next;
                Some(n + 1)
            }
            None => None,
        },
    }
}

// The number of states, MAX_STATES + 1 for too many. The states in the order found, and their moves: state i by zone z at ZONES * i + z,
// the index of the next state, or MAX_STATES for a signal. For the crates of this repository: it has a `requires`.
pub fn explore(list: RuleList, found: &mut [u64], moves: &mut [u16]) -> usize
    requires { Explorable list found.old moves.old }
    ensures { Explored (state_automaton (active_rules list)) found.new moves.new result }
{
    found[0] = 0;
    let mut n: usize = 1;
    let mut k: usize = 0;
    // the end moves on with each state found
    while k < ZONES * n {
        let Some(count) = visit(list, found, moves, n, k) else {
            return RuleList::MAX_STATES + 1;
        };
        n = count;
        k += 1;
    }
    n
}
