// What all exported functions share: a refusal as one number, and the rule list of a caller's slots.
ghost use Rattle.std.specs.Prelude.{◌≡◌, ◌<◌};
ghost use Rattle.rules.specs.Bounds.{max_rules};
ghost use Rattle.codes.specs.Codes.{rule_at, slot_list, code_by};

use crate::sizes::SLOTS;
use rules::{Reason, Rule, RuleList};

// A refusal as one number, or any number and place: the number in the low 32 bits, the place above them. An accepted call answers 0.
pub fn code<R: Reason>(r: R) -> u64
    ensures { result ≡ code_by (R.number r) (R.place r) }
{
    let (number, place) = r.told();
    u64::from(number) + 4294967296 * u64::from(place)
}

// The rule in a slot.
fn rule_at(slots: [u32; SLOTS], i: usize) -> Rule
    requires { i < max_rules }
    ensures { result ≡ rule_at slots i }
{
    Rule::new(slots[3 * i], slots[3 * i + 1], slots[3 * i + 2])
}

// The rule list of the slots.
pub fn list_of(slots: [u32; SLOTS], count: u32) -> RuleList
    ensures { result ≡ slot_list slots count }
{
    RuleList {
        rules: [
            rule_at(slots, 0),
            rule_at(slots, 1),
            rule_at(slots, 2),
            rule_at(slots, 3),
            rule_at(slots, 4),
            rule_at(slots, 5),
            rule_at(slots, 6),
            rule_at(slots, 7),
        ],
        len: count,
    }
}
