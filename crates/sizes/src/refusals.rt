// The refusals, each by the name of its number.
use rules::Refusal;

pub static REFUSALS: [(&str, Refusal); 19] = [
    // Of the monitor.
    ("BAD_SIGMA", Refusal::Sigma),
    ("BAD_RULE_COUNT", Refusal::RuleCount),
    ("BAD_RULE", Refusal::RuleBounds(0)),
    ("BAD_ZONE_SET", Refusal::ZoneSet(0)),
    ("BAD_STATE", Refusal::State),
    ("BAD_ZONE", Refusal::Zone),
    ("BAD_COUNT", Refusal::Count),
    // Of the table.
    ("BAD_WEIGHTS", Refusal::Weights),
    ("BAD_HORIZON", Refusal::Horizon),
    ("TOO_MANY_STATES", Refusal::States(0)),
    ("SHORT_LIST", Refusal::ShortList),
    // Of the bracket.
    ("BAD_LIST", Refusal::ListLength),
    ("BAD_N", Refusal::StateCount),
    ("BAD_PERCENT", Refusal::Percent),
    ("BAD_CHANCES", Refusal::Total),
    // Of the texts.
    ("BAD_LINE", Refusal::Line(0)),
    ("LONG_TEXT", Refusal::TextSize),
    ("BAD_SHIFT", Refusal::Shift),
    ("BAD_NODE", Refusal::Node(0)),
];
