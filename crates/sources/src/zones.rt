// Zones that lead every state to the same place count as one: the first of them has their weights.
ghost use Rattle.sources.specs.AlikeZones.{CanCompare, AlikeZones, AlikeIf, CanFind, CanJoin, Joined};

use rules::ZONES;

// Whether the zones a and b lead each state to the same place.
fn alike(moves: &[u16], n: usize, a: usize, b: usize) -> bool
    requires { CanCompare moves.now n a b }
    ensures { AlikeIf moves.now n a b result }
{
    (0..n).all(|s| moves[ZONES * s + a] == moves[ZONES * s + b])
}

// The first zone that is alike to z.
fn first_alike(moves: &[u16], n: usize, z: usize) -> usize
    requires { CanFind moves.now n z }
    ensures { AlikeZones moves.now n result z }
{
    (0..z).find(|a| alike(moves, n, *a, z)).unwrap_or(z)
}

// The weights with those of alike zones joined. `joined` is all 0 before.
pub(crate) fn join(moves: &[u16], n: usize, weights: &[u32], joined: &mut [u32])
    requires { CanJoin moves.now n weights.now joined.old }
    ensures { Joined moves.now n weights.now joined.new }
{
    for z in 0..ZONES {
        let a = first_alike(moves, n, z);
        joined[a] += weights[z];
    }
}
