// The sizes of the arrays that callers lend.
use rules::RuleList;

// The numbers of a rule list: k, m and the zone set of each of its slots.
pub const SLOTS: usize = 3 * (RuleList::MAX_RULES as usize);

// The places of each array that is written.
pub const STEP_ANSWER: usize = 2;

pub const BATCH_ANSWER: usize = 4;

pub const BRACKET_ANSWER: usize = 3;

pub const FIGURES: usize = 4;
