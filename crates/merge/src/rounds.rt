// The first state of each class, by rounds: each looks one point further ahead, and the first that moves no leader is the last.
ghost use Rattle.std.specs.Prelude.{◌≡◌, ◌≤◌, ◌<◌, length, take};
ghost use Rattle.runlength.specs.Sum.{at};
ghost use Rattle.merge.specs.Rounds.{label_of, agreeing, next_leader, HasRoom, Skips, HoldsLeaders, SkipNone, NextLeaders};

use rules::{RuleList, ZONES};

// What the list says of the state that an entry leads to, or MAX_STATES for a signal.
pub(crate) fn label_of(labels: &[u16], entry: u16) -> u16
    ensures { result ≡ label_of (length labels.now) labels.now entry }
{
    match labels.get(usize::from(entry)) {
        Some(label) => *label,
        None => RuleList::MAX_STATES as u16,
    }
}

// The states of a round: their moves, and their leaders so far. An entry of as many or more is a signal.
#[derive(Clone, Copy)]
struct Round<'a> {
    moves: &'a [u16],
    leaders: &'a [u16],
    ghost has_room: { HasRoom (length leaders.now) moves.now },
}

impl Round<'_> {
    // The leader so far of the state that entry k leads to, or MAX_STATES for a signal.
    fn label(&self, k: usize) -> u16
        requires { k < length self.now.moves.now }
        ensures { let leaders = self.now.leaders.now in result ≡ label_of (length leaders) leaders (at self.now.moves.now k) }
    {
        label_of(self.leaders, self.moves[k])
    }

    // Whether every zone leads from both states to the same leader so far, or to a signal.
    fn agree(&self, i: usize, j: usize) -> bool
        requires { (i < length self.now.leaders.now) × (j < length self.now.leaders.now) }
        ensures { let r = self.now in result ≡ agreeing (length r.leaders.now) r.moves.now r.leaders.now i j }
    {
        (0..ZONES).all(|z| self.label(ZONES * i + z) == self.label(ZONES * j + z))
    }

    // The first state that agrees with i: none before its leader so far does.
    fn next_leader(&self, i: usize) -> usize
        requires { let r = self.now in (i < length r.leaders.now) × Skips (length r.leaders.now) r.moves.now r.leaders.now i }
        ensures value { let r = self.now in result ≡ next_leader (length r.leaders.now) r.moves.now r.leaders.now i }
        ensures most { result ≤ i }
    {
        for j in usize::from(self.leaders[i])..i {
            if self.agree(j, i) {
                return j;
            }
        }
        i
    }

    // The next leader of each state.
    fn next_leaders(&self) -> [u16; RuleList::MAX_STATES]
        requires { SkipNone self.now.moves.now self.now.leaders.now }
        ensures { NextLeaders self.now.moves.now self.now.leaders.now result (length self.now.leaders.now) }
    {
        let mut next = [0; RuleList::MAX_STATES];
        for i in 0..self.leaders.len() {
            next[i] = self.next_leader(i) as u16;
        }
        next
    }
}

// The first state of the class of each of the n states. To begin with all are 0, the leaders by no point.
pub(crate) fn find_leaders(moves: &[u16], n: usize) -> [u16; RuleList::MAX_STATES]
    requires { HasRoom n moves.now }
    ensures { HoldsLeaders n moves.now (take n result) n }
{
    let mut leaders = [0; RuleList::MAX_STATES];
    for _ in 0..n {
        let round = Round {
            moves,
            leaders: &leaders[..n],
        };
        let next = round.next_leaders();
        if next[..n] == leaders[..n] {
            return leaders;
        }
        leaders = next;
    }
    leaders
}
