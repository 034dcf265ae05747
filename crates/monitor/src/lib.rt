// The monitor: a chart that keeps only what its rules still need to remember.
#![tactic(auto)]

ghost use Rattle.std.specs.Prelude.{◌≡◌, true, ◌≤◌, ◌<◌};
ghost use Rattle.rules.specs.Bounds.{zone_count, max_rules, max_number};
ghost use Rattle.rules.specs.Check.{active_rules};
ghost use Rattle.rules.specs.InBounds.{AllInBounds};
ghost use Rattle.window.specs.State.{valid_state};
ghost use Rattle.monitor.specs.Step.{accepted_step, fresh_monitor, step_of};
ghost use Rattle.monitor.specs.Take.{taken_of};

use rules::{MAX_NUMBER, Refusal, RuleList, ZONES};
use window::Move;

mod chart;
pub mod zone;

pub use chart::Chart;
pub use zone::{ZONE_A1, ZONE_A2, ZONE_B1, ZONE_B2, ZONE_C0, ZONE_C1, ZONE_C2, ZONE_S};

// The state (document 01's standing): the window of rule i is digit i in base 256, and in it the hit of age a is digit a - 1 in base 2.
// The count: the points since the last reset.
#[derive(Clone, Copy)]
pub struct Monitor {
    pub state: u64,
    pub count: u32,
}

// What a step answers: the count with this point in it, the mask of all rules that hold, and the monitor for the next point.
#[derive(Clone, Copy)]
pub enum Step {
    Quiet {
        count: u32,
        next: Monitor,
    },
    Signal {
        count: u32,
        mask: u32,
        next: Monitor,
    },
}

// What a point does where nothing is refused: quiet, with the monitor for the next point; or signal, with the mask of all rules that hold, and a
// fresh monitor comes next.
#[derive(Clone, Copy)]
pub enum Taken {
    Quiet(Monitor),
    Signal(u32),
}

impl Monitor {
    // The empty state and count 0.
    pub fn fresh() -> Monitor
        ensures { result ≡ fresh_monitor }
    {
        Monitor { state: 0, count: 0 }
    }

    // Whether the monitor can be given with rules that are accepted. For the crates of this repository.
    pub fn valid(self, list: RuleList) -> bool
        requires { (list.len ≤ max_rules) × AllInBounds (active_rules list) }
        ensures { result ≡ valid_state self.count (active_rules list) self.state }
    {
        window::valid_state(list, self.count, self.state)
    }

    // One point, for rules that are accepted, a zone that exists, a state that can be given and a count with room. For
    // the crates of this repository.
    pub fn take(self, list: RuleList, zone: u32) -> Taken
        requires len_le_max_rules { (list.len ≤ max_rules) × AllInBounds (active_rules list) × (zone < zone_count) × (self.count < max_number) }
        requires state_value { valid_state self.count (active_rules list) self.state ≡ true }
        ensures { result ≡ taken_of (active_rules list) self zone }
    {
        let count = self.count + 1;
        match window::move_of(list, self.state, zone) {
            Move::Quiet(state) => Taken::Quiet(Monitor { state, count }),
            Move::Signal(mask) => Taken::Signal(mask),
        }
    }

    // A step with rules that are accepted: 6, 5, 7, or the answer.
    fn accepted_step(self, list: RuleList, zone: u32) -> Result<Step, Refusal>
        requires { (list.len ≤ max_rules) × AllInBounds (active_rules list) }
        ensures { result ≡ accepted_step (active_rules list) self zone }
    {
        if zone >= ZONES as u32 {
            return Err(Refusal::Zone);
        }
        if !self.valid(list) {
            return Err(Refusal::State);
        }
        if self.count >= MAX_NUMBER {
            return Err(Refusal::Count);
        }
        let count = self.count + 1;
        match self.take(list, zone) {
            Taken::Quiet(next) => Ok(Step::Quiet { count, next }),
            Taken::Signal(mask) => Ok(Step::Signal {
                count,
                mask,
                next: Monitor::fresh(),
            }),
        }
    }

    // One point: refused by 2, 3, 4; 6; 5; 7, in this order; else quiet or signal.
    pub fn step(self, list: RuleList, zone: u32) -> Result<Step, Refusal>
        ensures { result ≡ step_of list self zone }
    {
        list.check()?;
        self.accepted_step(list, zone)
    }
}
