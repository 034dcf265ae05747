// Rule lists, as tables of cases write them.
ghost use Rattle.std.specs.Prelude.{◌≡◌};
ghost use Rattle.show.specs.Lists.{meant, no_rules, with_rule, with_rules};

use rules::{Rule, RuleList};
use std::{fmt, io};

// Document 01's T(k,m,Z).
#[derive(Clone, Copy)]
pub struct T(pub u32, pub u32, pub u32);

// What stands in a slot that no case looks at.
pub const NONE: T = T(0, 0, 0);

#[derive(Clone, Copy)]
pub enum Rules {
    One(T),
    Two(T, T),
    // What stands in the first slot, in the second and in the six others, and how many rules count.
    Slots(T, T, T, u32),
}

impl From<T> for Rule {
    ghost from_gives = { λ t r. r ≡ meant t };

    fn from(t: T) -> Rule {
        Rule::new(t.0, t.1, t.2)
    }
}

impl fmt::Display for T {
    fn fmt<W: fmt::Write>(&self, f: &mut fmt::Formatter<W>) -> fmt::Result {
        write!(f, "{},{},{}", self.0, self.1, self.2)
    }
}

impl Rules {
    // As `Slots` has them.
    fn slots(self) -> (T, T, T, u32) {
        match self {
            Rules::One(first) => (first, NONE, NONE, 1),
            Rules::Two(first, second) => (first, second, NONE, 2),
            Rules::Slots(first, second, others, len) => (first, second, others, len),
        }
    }
}

impl From<Rules> for RuleList {
    fn from(rules: Rules) -> RuleList {
        let (first, second, others, len) = rules.slots();
        let mut rules = [Rule::from(others); RuleList::MAX_RULES as usize];
        rules[0] = Rule::from(first);
        rules[1] = Rule::from(second);
        RuleList { rules, len }
    }
}

impl fmt::Display for Rules {
    fn fmt<W: fmt::Write>(&self, f: &mut fmt::Formatter<W>) -> fmt::Result {
        let (first, second, others, len) = self.slots();
        write!(f, "len {len} {first} {second} and 6 of {others}")
    }
}

// Prints all slots of a list.
pub fn whole(out: &impl Print, list: &RuleList) -> io::Result<()> {
    print!(out; " len {}", list.len)?;
    for rule in &list.rules {
        print!(out; " {},{},{}", rule.k, rule.m, rule.zones)?;
    }
    Ok(())
}

// The list with the rule behind its others; as it was, where it has no room.
pub fn with(list: RuleList, rule: T) -> RuleList
    ensures { result ≡ with_rule list rule }
{
    if list.len >= RuleList::MAX_RULES {
        return list;
    }
    let mut rules = list.rules;
    rules[list.len as usize] = Rule::from(rule);
    RuleList {
        rules,
        len: list.len + 1,
    }
}

// The list of these rules, as many as it has room for.
pub fn list_of(rules: &[T]) -> RuleList
    ensures { result ≡ with_rules no_rules rules.now }
{
    let mut list = RuleList {
        rules: [Rule::from(NONE); RuleList::MAX_RULES as usize],
        len: 0,
    };
    for rule in rules {
        list = with(list, *rule);
    }
    list
}
