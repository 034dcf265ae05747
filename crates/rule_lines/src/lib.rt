// The rule lines of a text.
#![tactic(auto)]

mod rule_lines;

pub use rule_lines::{RuleLine, RulesRead, no_rules, read_rules};
