// Marks of the targets and zones that some move has: most states are led to by one zone, and the others need not be looked through.
ghost use Rattle.std.specs.Prelude.{◌*◌};
ghost use Rattle.rules.specs.Bounds.{zone_count};
ghost use Rattle.sources.specs.Marks.{CanSet, Set, CanMark, MarkedUpTo};

use rules::ZONES;

// A mark for the target t and the zone z, if t is a state.
fn set_mark(marks: &mut [u16], t: usize, z: usize, n: usize)
    requires { CanSet marks.old z n }
    ensures { Set marks.old t z n marks.new }
{
    if t < n {
        marks[ZONES * t + z] = 1;
    }
}

// A mark for each target and zone that some move has: with no mark the zone leads there from no state.
pub(crate) fn mark(moves: &[u16], n: usize, marks: &mut [u16])
    requires { CanMark moves.now n marks.old }
    ensures { MarkedUpTo moves.now n (zone_count * n) marks.new }
{
    for k in 0..ZONES * n {
        set_mark(marks, usize::from(moves[k]), k % ZONES, n);
    }
}
