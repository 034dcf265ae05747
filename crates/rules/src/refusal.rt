// Why an operation turns its input down: every number there is, each written here once.
ghost use Rattle.std.specs.Prelude.{◌≡◌};
ghost use Rattle.rules.specs.Refusal.{number_of, place_of};

// A case with a number has a place: the index of the rule for 3 and 4, the line from 1 for 16 and 19.
#[derive(Clone, Copy, PartialEq, Eq, Debug)]
pub enum Refusal {
    // Sigma is outside its bounds.
    Sigma,
    // No rules, or too many.
    RuleCount,
    // A rule's k or m is outside its bounds.
    RuleBounds(u32),
    // A rule's zone set is empty or has a zone that does not exist.
    ZoneSet(u32),
    // The given state cannot stand with these rules and this count.
    State,
    // There is no such zone.
    Zone,
    // The count can go no further.
    Count,
    // The weights do not sum to probability one.
    Weights,
    // The horizon is outside its bounds.
    Horizon,
    // The rules have too many states. The place is 0 for a table.
    States(u32),
    // A lent list is shorter than the horizon.
    ShortList,
    // A list of chances is empty or too long.
    ListLength,
    // The number of states is outside its bounds.
    StateCount,
    // The percent is outside its bounds.
    Percent,
    // The chances sum to more than probability one.
    Total,
    // A line is not the one expected, is missing, or cannot be read.
    Line(u32),
    // The text is too long.
    TextSize,
    // The shift is outside its bounds.
    Shift,
    // A node over the last one, at this point line.
    Node(u32),
}

impl Refusal {
    // The number that callers and printed lines tell it by.
    pub fn number(self) -> u32
        ensures { result ≡ number_of self }
    {
        match self {
            Refusal::Sigma => 1,
            Refusal::RuleCount => 2,
            Refusal::RuleBounds(_) => 3,
            Refusal::ZoneSet(_) => 4,
            Refusal::State => 5,
            Refusal::Zone => 6,
            Refusal::Count => 7,
            Refusal::Weights => 8,
            Refusal::Horizon => 9,
            Refusal::States(_) => 10,
            Refusal::ShortList => 11,
            Refusal::ListLength => 12,
            Refusal::StateCount => 13,
            Refusal::Percent => 14,
            Refusal::Total => 15,
            Refusal::Line(_) => 16,
            Refusal::TextSize => 17,
            Refusal::Shift => 18,
            Refusal::Node(_) => 19,
        }
    }

    // What it is about, where it has a place; else 0.
    pub fn place(self) -> u32
        ensures { result ≡ place_of self }
    {
        match self {
            Refusal::RuleBounds(rule) | Refusal::ZoneSet(rule) => rule,
            Refusal::Line(line) | Refusal::Node(line) => line,
            Refusal::States(place) => place,
            _ => 0,
        }
    }
}
