// One rule's window: the hits that the rule still needs, the hit of age a at digit a - 1 in base 2.
ghost use Rattle.std.specs.Prelude.{◌≡◌, ◌+◌, ◌-◌, ◌*◌, ◌%◌, ◌^◌, ◌≤◌, ◌<◌, eqb};
ghost use Rattle.rules.specs.Bounds.{zone_count};
ghost use Rattle.rules.specs.InBounds.{InBounds};
ghost use Rattle.rules.specs.ZoneSet.{in_zone_set};
ghost use Rattle.window.specs.Settled.{Settled};
ghost use Rattle.window.specs.Window.{max_age, window_base, hits_up_to, live, next_window, window_holds, valid_window};

use rules::{Rule, RuleList};

// The oldest age that any rule can remember, and the number of different windows.
pub(crate) const MAX_AGE: u32 = RuleList::MAX_WINDOW - 1;

pub(crate) const BASE: u64 = 1 << MAX_AGE;

// The remembered hits of one rule: the hit of age a is digit a - 1 in base 2.
#[derive(Clone, Copy)]
pub(crate) struct Window {
    pub(crate) hits: u64,
    ghost small: { hits < window_base },
}

// What a point does to a window.
#[derive(Clone, Copy)]
pub(crate) struct WindowMove {
    pub(crate) holds: bool,
    pub(crate) next: Window,
}

// Whether the zone is in the set.
fn is_hit(zones: u32, zone: u32) -> bool
    requires { zone < zone_count }
    ensures { result ≡ eqb (in_zone_set zones zone) 1 }
{
    (zones >> zone) % 2 == 1
}

// The live hits of a window whose first age has `seen` newer hits and leaves the last m after `room` more points. Where the first age's hit
// is not live, no older one is.
#[tactic(auto, using(crate::specs::ForgetLaws::live_steps))]
fn live_hits(k: u64, seen: u64, room: u64, window: u64) -> u64
    requires { (seen + room ≤ 2 * max_age) × (window < 2 * window_base) }
    ensures { result ≡ live k seen room window }
{
    if room == 0 {
        return 0;
    }
    let b = window % 2;
    if k <= seen + b + room {
        b + 2 * live_hits(k, seen + b, room - 1, window / 2)
    } else {
        0
    }
}

impl Window {
    // How many hits it has.
    #[tactic(auto, using(crate::specs::WindowLaws::hits_ones))]
    fn count(self) -> u32
        ensures { result ≡ hits_up_to max_age self.hits }
    {
        self.hits.count_ones()
    }

    // With a hit at age 1 and every other hit a point older, up to the oldest age of the rule.
    fn moved_up(self, ages: u32) -> Window
        requires { ages ≤ max_age }
        ensures { result.hits ≡ (1 + 2 * self.hits) % 2 ^ ages }
    {
        let limit: u64 = 1 << ages;
        Window {
            hits: (1 + 2 * self.hits) % limit,
        }
    }

    // What a point does to a window that can be given. Only a hit can make the rule hold, and moves every age up by one; only a miss can make
    // older hits stale.
    pub(crate) fn settled_move(self, rule: Rule, zone: u32) -> WindowMove
        requires { InBounds rule × (zone < zone_count) × Settled rule self.hits }
        ensures { (result.holds ≡ window_holds rule self.hits zone) × (result.next.hits ≡ next_window rule self.hits zone) }
    {
        if is_hit(rule.zones, zone) {
            return WindowMove {
                holds: rule.k <= 1 + self.count(),
                next: self.moved_up(rule.m - 1),
            };
        }
        if self.hits == 0 {
            return WindowMove {
                holds: false,
                next: self,
            };
        }
        WindowMove {
            holds: false,
            next: Window {
                hits: live_hits(u64::from(rule.k), 0, u64::from(rule.m - 1), 2 * self.hits),
            },
        }
    }

    // Whether it can be given with this many points.
    pub(crate) fn can_be_given(self, count: u32, rule: Rule) -> bool
        requires { InBounds rule }
        ensures { result ≡ valid_window count rule self.hits }
    {
        if rule.k <= self.count() {
            return false;
        }
        if live_hits(u64::from(rule.k), 0, u64::from(rule.m - 1), self.hits) != self.hits {
            return false;
        }
        self.hits >> count.min(MAX_AGE) == 0
    }
}
