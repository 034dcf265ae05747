// The classes numbered in the order of their first states, and their moves.
ghost use Rattle.std.specs.Prelude.{◌≡◌, ◌+◌, ◌*◌, length};
ghost use Rattle.rules.specs.Bounds.{zone_count, max_states};
ghost use Rattle.runlength.specs.Sum.{front};
ghost use Rattle.merge.specs.Numbering.{Numbered, Numberable, CanNumber, carried, CanCarry};

use crate::rounds::label_of;
use rules::{RuleList, ZONES};

// The class of each state so far, and the first state of each of the classes.
#[derive(Drop)]
pub(crate) struct Classes {
    of_states: [u16; RuleList::MAX_STATES],
    firsts: [u16; RuleList::MAX_STATES],
    pub(crate) count: usize,
}

impl Classes {
    // The class of each state, and the first state of each class.
    pub(crate) fn number(leaders: &[u16]) -> Classes
        requires { Numberable leaders.now }
        ensures { Numbered leaders.now result (length leaders.now) }
    {
        let mut classes = Classes {
            of_states: [0; RuleList::MAX_STATES],
            firsts: [0; RuleList::MAX_STATES],
            count: 0,
        };
        for i in 0..leaders.len() {
            classes.add(leaders, i);
        }
        classes
    }

    // State i gets its class: a new one where it leads, else that of its leader.
    fn add(&mut self, leaders: &[u16], i: usize)
        requires { CanNumber leaders.now self.old i }
        ensures { Numbered leaders.now self.new (i + 1) }
    {
        let leader = usize::from(leaders[i]);
        if leader == i {
            self.firsts[self.count] = i as u16;
            self.of_states[i] = self.count as u16;
            self.count += 1;
        } else {
            self.of_states[i] = self.of_states[leader];
        }
    }

    // The moves of the classes: those of their first states, carried over to classes.
    pub(crate) fn carry(&self, moves: &[u16], n: usize, merged: &mut [u16])
        requires { CanCarry n moves.now self.now merged.old }
        ensures { merged.new ≡ front (zone_count * self.now.count) (carried n moves.now self.now) merged.old }
    {
        for k in 0..ZONES * self.count {
            let first = usize::from(self.firsts[k / ZONES]);
            merged[k] = label_of(&self.of_states[..n], moves[ZONES * first + k % ZONES]);
        }
    }
}
