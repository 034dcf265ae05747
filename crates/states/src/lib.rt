// The states of a rule list, and the moves between them.
#![tactic(auto)]

mod worklist;

pub use worklist::explore;
