// The state of all rules: the window of rule i is digit i in base 256.
ghost use Rattle.std.specs.Prelude.{◌≡◌, ◌*◌, ◌/◌, ◌%◌, ◌^◌, ◌≤◌, ◌<◌};
ghost use Rattle.rules.specs.Bounds.{zone_count, max_rules};
ghost use Rattle.rules.specs.Check.{active_rules};
ghost use Rattle.rules.specs.InBounds.{AllInBounds};
ghost use Rattle.window.specs.Window.{max_age, window_base};
ghost use Rattle.window.specs.State.{valid_state, move_of};
ghost use Rattle.window.specs.Settled.{CanBeGiven};

use crate::Move;
use crate::window::{BASE, MAX_AGE, Window};
use rules::RuleList;

// Whether the state can be given with these rules and this many points. For the crates of this repository.
pub fn valid_state(list: RuleList, count: u32, state: u64) -> bool
    requires { (list.len ≤ max_rules) × AllInBounds (active_rules list) }
    ensures { result ≡ valid_state count (active_rules list) state }
{
    let mut windows = state;
    for rule in &list.rules[..list.len as usize] {
        let window = Window {
            hits: windows % BASE,
        };
        if !window.can_be_given(count, *rule) {
            return false;
        }
        windows /= BASE;
    }
    windows == 0
}

// The window of rule i.
fn window_at(state: u64, i: u32) -> Window
    requires { i < max_rules }
    ensures { result.hits ≡ state / 2 ^ (max_age * i) % window_base }
{
    Window {
        hits: (state >> (MAX_AGE * i)) % BASE,
    }
}

// What a point does to a state that can be given, with accepted rules: every rule's window is moved once, from the last rule to the first. For
// the crates of this repository.
pub fn move_of(list: RuleList, state: u64, zone: u32) -> Move
    requires len_le_max_rules { (list.len ≤ max_rules) × AllInBounds (active_rules list) × (zone < zone_count) }
    requires given { CanBeGiven (active_rules list) state }
    ensures { result ≡ move_of (active_rules list) state zone }
{
    let mut mask: u32 = 0;
    let mut next: u64 = 0;
    for i in (0..list.len).rev() {
        let moved = window_at(state, i).settled_move(list.rules[i as usize], zone);
        mask = u32::from(moved.holds) + 2 * mask;
        next = moved.next.hits + BASE * next;
    }
    if mask == 0 {
        return Move::Quiet(next);
    }
    Move::Signal(mask)
}
