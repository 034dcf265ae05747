// The rule lines of a text, from an offset on.
ghost use Rattle.std.specs.Prelude.{◌≡◌, ◌≤◌, [], length};
ghost use Rattle.grammar.specs.Size.{max_text};
ghost use Rattle.rule_lines.specs.Rules.{rule_list_of, pushed, rule_line_at, rules_read};

use decimal::past;
use rules::{Refusal, Rule, RuleList};
use text::line_at;

// The line where a rule may come next: one that does not begin with the word `rule`, one that gives a rule's three numbers, or one that begins
// so and does not give them.
#[derive(Clone, Copy)]
pub enum RuleLine {
    Absent,
    Rule {
        k: u32,
        m: u32,
        zones: u32,
        next: usize,
    },
    Unreadable,
}

// The rules, and the offset and the number of the first line that is no rule line; with the refusal of that line where it begins as a
// rule line and does not give three numbers.
#[derive(Clone, Copy)]
pub struct RulesRead {
    pub refusal: Option<Refusal>,
    pub list: RuleList,
    pub next: usize,
    pub line: u32,
}

// The list of no rules.
pub fn no_rules() -> RuleList
    ensures { result ≡ rule_list_of [] }
{
    RuleList {
        rules: [Rule {
            k: 0,
            m: 0,
            zones: 0,
        }; RuleList::MAX_RULES as usize],
        len: 0,
    }
}

// One rule more: it takes the next slot while there is one, and counts in any case.
fn push(list: RuleList, rule: Rule) -> RuleList
    requires { list.len ≤ max_text }
    ensures { result ≡ pushed list rule }
{
    let mut rules = list.rules;
    let len = list.len;
    if len < RuleList::MAX_RULES {
        rules[len as usize] = rule;
        return RuleList {
            rules,
            len: len + 1,
        };
    }
    RuleList {
        rules,
        len: len + 1,
    }
}

// The line at `at`, where a rule may come next.
fn rule_line(text: &[u8], at: usize) -> RuleLine
    ensures { result ≡ rule_line_at text.now at }
{
    if let Some(line) = line_at(text, at, b"rule", b"nnn") {
        return RuleLine::Rule {
            k: line.values[0],
            m: line.values[1],
            zones: line.values[2],
            next: line.next,
        };
    }
    match past(text, at, b"rule") {
        Some(_) => RuleLine::Unreadable,
        None => RuleLine::Absent,
    }
}

// The rule lines from `at` on, where line `first` begins. For the crates of this repository: it has a `requires`.
pub fn read_rules(text: &[u8], at: usize, first: u32) -> RulesRead
    requires text_len_bound { length text.now ≤ max_text }
    requires first_le_max_text { first ≤ max_text }
    ensures { result ≡ rules_read text.now at first }
{
    let mut list = no_rules();
    let mut i = at;
    loop {
        let found = rule_line(text, i);
        if let RuleLine::Absent = found {
            return RulesRead {
                refusal: None,
                list,
                next: i,
                line: first + list.len,
            };
        }
        let RuleLine::Rule { k, m, zones, next } = found else {
            return RulesRead {
                refusal: Some(Refusal::Line(first + list.len)),
                list,
                next: i,
                line: first + list.len,
            };
        };
        list = push(list, Rule::new(k, m, zones));
        i = next;
    }
}
