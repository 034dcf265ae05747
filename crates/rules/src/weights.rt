// A weight for each zone.
ghost use Rattle.std.specs.Prelude.{◌≡◌};
ghost use Rattle.rules.specs.Weights.{weight_list};

use crate::ZONES;

// Each zone's weight by its name.
#[derive(Clone, Copy)]
pub struct ZoneWeights {
    pub s: u32,
    pub a1: u32,
    pub b1: u32,
    pub c1: u32,
    pub c2: u32,
    pub b2: u32,
    pub a2: u32,
    pub c0: u32,
}

// From zone 0 on.
impl From<ZoneWeights> for [u32; ZONES] {
    ghost from_gives = { λ w r. r ≡ weight_list w };

    fn from(w: ZoneWeights) -> [u32; ZONES] {
        [w.s, w.a1, w.b1, w.c1, w.c2, w.b2, w.a2, w.c0]
    }
}
