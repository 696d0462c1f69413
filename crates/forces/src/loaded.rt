// A wall and loads that fit it: what the forces are worked from.
ghost use Rattle.std.specs.Prelude.{◌≡◌, ◌<◌, ◌^◌, T, get_or};
ghost use Rattle.rules.specs.Beyond.{fits};
ghost use Rattle.rules.proofs.Accepted.{WallWithin};

use record::{Loads, Wall};

#[derive(Drop)]
pub struct LoadedWall {
    pub wall: Wall,
    pub loads: Loads,
    ghost fits: { T (fits wall loads) },
    ghost within: { WallWithin wall },
}

impl LoadedWall {
    // The wall's field at an index, which is its number less 1.
    pub fn field(&self, i: usize) -> u64
        ensures { (result ≡ get_or self.now.wall i 0) × (result < 2 ^ 32) }
    {
        record::field(self.wall, i)
    }
}
