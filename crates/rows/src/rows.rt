// The rows of the table of a chain given by its moves.
ghost use Rattle.rows.specs.Rows.{CanRun, Ran};
ghost use Rattle.rows.specs.Running.{CanMean, MeanDone};

use next_row::next_point;
use rules::RuleList;
use runlength::UNITS_PER_ONE;
use sources::{SourceLists, list_sources};

// What the rows leave besides the two lists: the survival at the horizon, and the restricted mean as whole points and units.
#[derive(Clone, Copy)]
pub struct Totals {
    pub survival: u64,
    pub mean_whole: u64,
    pub mean_fraction: u64,
}

impl Totals {
    // The totals after one row more, which leaves `survival`: the one before is added to the restricted mean.
    fn after(self, survival: u64) -> Totals
        requires { CanMean self.survival self.mean_whole self.mean_fraction survival }
        ensures { MeanDone self.survival self.mean_whole self.mean_fraction survival result.survival result.mean_whole result.mean_fraction }
    {
        let sum = self.mean_fraction + self.survival;
        Totals {
            survival,
            mean_whole: self.mean_whole + sum / UNITS_PER_ONE,
            mean_fraction: sum % UNITS_PER_ONE,
        }
    }
}

// The rows 1 to `horizon` of the table of the chain that `moves` gives: n states, state i by zone z at ZONES * i + z, and any
// entry of n or more a signal. For the crates of this repository: it has a `requires`.
pub fn run_rows(
    moves: &[u16],
    n: usize,
    weights: &[u32],
    horizon: usize,
    pmf: &mut [u64],
    survival: &mut [u64],
) -> Totals
    requires { CanRun moves.now n weights.now horizon pmf.old survival.old }
    ensures { Ran moves.now n weights.now horizon pmf.old survival.old pmf.new survival.new result.survival result.mean_whole result.mean_fraction }
{
    let mut lists = SourceLists::empty();
    list_sources(moves, n, weights, &mut lists);
    let mut units = [0u64; 2 * RuleList::MAX_STATES];
    units[0] = UNITS_PER_ONE;
    let mut totals = Totals {
        survival: UNITS_PER_ONE,
        mean_whole: 0,
        mean_fraction: 0,
    };
    // The units of one row and of the next: they change places, and nothing is copied. Both are parts of one list, so that they always lie to
    // one another in the same way: with two lists that lay badly a table took 7 percent longer.
    let (mut now, mut next) = units.split_at_mut(RuleList::MAX_STATES);
    let lent = lists.lend();
    for k in 0..horizon {
        let point = next_point(lent, now, totals.survival, n, next);
        totals = totals.after(point.survival);
        pmf[k] = point.pmf;
        survival[k] = point.survival;
        (now, next) = (next, now);
    }
    totals
}
