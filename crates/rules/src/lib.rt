// Rule lists: the number of zones, the bounds, the two ready lists and the check; the weights of the zones; and the refusals of every operation.
#![tactic(auto)]

ghost use Rattle.std.specs.Prelude.{◌≡◌};
ghost use Rattle.rules.specs.Check.{within as in_range, check_of, check_rule};
ghost use Rattle.rules.specs.Ready.{rule_of, western_electric, duncan_list};

mod reason;
mod refusal;
mod weights;

pub use reason::Reason;
pub use refusal::Refusal;
pub use weights::ZoneWeights;

// How many zones the chart has: they are numbered from 0. Nothing else says it.
pub const ZONES: usize = 8;

// The largest number of 32 bits: the largest that a text can say, and the largest count.
pub const MAX_NUMBER: u32 = 4294967295;

// Document 01's T(k,m,Z): signals when at least k of the last m points lie in the zones of the set, written as the sum of 2^zone.
#[derive(Clone, Copy)]
pub struct Rule {
    pub k: u32,
    pub m: u32,
    pub zones: u32,
}

// The first `len` rules count; the slots after them are never looked at.
#[derive(Clone, Copy)]
pub struct RuleList {
    pub rules: [Rule; RuleList::MAX_RULES as usize],
    pub len: u32,
}

// Whether low ≤ x ≤ high.
pub fn within(low: u32, high: u32, x: u32) -> bool
    ensures { result ≡ in_range low high x }
{
    if x < low {
        return false;
    }
    x <= high
}

impl Rule {
    pub fn new(k: u32, m: u32, zones: u32) -> Rule
        ensures { result ≡ rule_of k m zones }
    {
        Rule { k, m, zones }
    }

    // One rule, which stands at the index `at`: 3, then 4.
    fn check(self, at: u32) -> Result<(), Refusal>
        ensures { result ≡ check_rule at self }
    {
        let window = within(RuleList::MIN_WINDOW, RuleList::MAX_WINDOW, self.m);
        let hits = within(RuleList::MIN_HITS, self.m, self.k);
        let zones = within(RuleList::MIN_ZONE_SET, RuleList::MAX_ZONE_SET, self.zones);
        if !(window & hits) {
            return Err(Refusal::RuleBounds(at));
        }
        if !zones {
            return Err(Refusal::ZoneSet(at));
        }
        Ok(())
    }
}

impl RuleList {
    pub const MIN_RULES: u32 = 1;

    pub const MAX_RULES: u32 = 8;

    // The bounds of m.
    pub const MIN_WINDOW: u32 = 1;

    pub const MAX_WINDOW: u32 = 9;

    // The least k; the largest is the rule's own m.
    pub const MIN_HITS: u32 = 1;

    // The bounds of a zone set: one zone at least, all zones at most.
    pub const MIN_ZONE_SET: u32 = 1;

    pub const MAX_ZONE_SET: u32 = (1 << ZONES) - 1;

    // The most states of a list that a table is made for.
    pub const MAX_STATES: usize = 1024;

    pub fn western_electric() -> RuleList
        ensures { result ≡ western_electric }
    {
        RuleList {
            rules: [
                Rule::new(1, 1, 1),
                Rule::new(2, 3, 64),
                Rule::new(2, 3, 2),
                Rule::new(4, 5, 96),
                Rule::new(4, 5, 6),
                Rule::new(8, 8, 112),
                Rule::new(8, 8, 14),
                Rule::new(0, 0, 0),
            ],
            len: 7,
        }
    }

    pub fn duncan() -> RuleList
        ensures { result ≡ duncan_list }
    {
        RuleList {
            rules: [
                Rule::new(1, 1, 1),
                Rule::new(2, 2, 64),
                Rule::new(2, 2, 2),
                Rule::new(5, 5, 96),
                Rule::new(5, 5, 6),
                Rule::new(0, 0, 0),
                Rule::new(0, 0, 0),
                Rule::new(0, 0, 0),
            ],
            len: 5,
        }
    }

    // 2 for none or too many; then rule by rule 3, then 4, with the rule's index as the place.
    pub fn check(self) -> Result<(), Refusal>
        ensures { result ≡ check_of self }
    {
        let len = self.len;
        if !within(RuleList::MIN_RULES, RuleList::MAX_RULES, len) {
            return Err(Refusal::RuleCount);
        }
        for i in 0..len {
            self.rules[i as usize].check(i)?;
        }
        Ok(())
    }
}
