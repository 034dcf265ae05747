// The theory of run lengths, in specs/; of code only its scales and the bounds of the horizon, each written here once.
#![tactic(auto)]

// Probability one for a single point: what the weights of the zones sum to.
pub const WEIGHT_TOTAL: u64 = 1 << 30;

// Probability one in units, the table's figures.
pub const UNITS_PER_ONE: u64 = 1 << 60;

// Probability one in percent.
pub const PERCENTS_PER_ONE: u64 = 100;

// A table has this many rows, a list of chances this many places.
pub const MIN_HORIZON: u32 = 1;

pub const MAX_HORIZON: u32 = 65535;
