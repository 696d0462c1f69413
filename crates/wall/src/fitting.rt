// What toe and heel are worked from: a wall whose fields fit their ranges, with the lengths of its base, in mm, and what the base weighs.
ghost use Rattle.std.specs.Prelude.{◌≡◌, ◌+◌, ◌*◌, ◌<◌, ◌≤◌, T};
ghost use Rattle.std.proofs.Props.{props};
ghost use Rattle.rules.specs.JobFile.{toe_length, stem_thickness, heel_length, base_length, base_thickness, base_density, wall_fits};
ghost use Rattle.rules.specs.Forces.{squared};
ghost use Rattle.rules.specs.ToeAndStem.{twice_arm, twice_heel_arm};
ghost use Rattle.rules.proofs.Accepted.{most, WallWithin, longest};

use record::{BASE_DENSITY, BASE_THICKNESS, HEEL_LENGTH, STEM_THICKNESS, TOE_LENGTH, Wall};
use rules::PER_VOLUME;

// 1.4, in tenths.
const FACTOR: u64 = 14;

// A weight in tenths.
pub const PER_WEIGHT: u64 = 10 * PER_VOLUME;

// Half of it, and a quarter for twice an arm, squared.
pub const PER_WEIGHT_MOMENT: u64 = 4 * 2 * 10 * PER_VOLUME;

// A wall that fits.
#[derive(Clone, Copy)]
pub struct Fitting {
    pub fields: Wall,
    ghost fits: { T (wall_fits fields) } by { Prim.hlevel props },
    ghost within: { WallWithin fields } by { Prim.hlevel props },
}

impl Fitting {
    // lt: where the stem begins.
    pub fn toe_length(&self) -> u64
        ensures { (result ≡ toe_length self.now.fields) × (result ≤ most 4) }
    {
        record::field(self.fields, TOE_LENGTH)
    }

    // lh.
    pub fn heel_length(&self) -> u64
        ensures { (result ≡ heel_length self.now.fields) × (result ≤ most 5) }
    {
        record::field(self.fields, HEEL_LENGTH)
    }

    // tw.
    pub fn stem_thickness(&self) -> u64
        ensures { (result ≡ stem_thickness self.now.fields) × (0 < result) × (result ≤ most 3) }
    {
        record::field(self.fields, STEM_THICKNESS)
    }

    // l.
    pub fn base_length(&self) -> u64
        ensures { (result ≡ base_length self.now.fields) × (0 < result) × (result ≤ longest) }
    {
        record::base_length(self.fields)
    }

    // 2a: twice the distance of the stem's middle from the toe.
    pub fn twice_arm(&self) -> u64
        ensures { (result ≡ twice_arm self.now.fields) × (result ≤ longest) }
    {
        2 * self.toe_length() + self.stem_thickness()
    }

    // 2b: twice the length from the middle of the stem to the heel's end.
    pub fn twice_heel_arm(&self) -> u64
        ensures { (result ≡ twice_heel_arm self.now.fields) × (result ≤ longest) }
    {
        2 * self.heel_length() + self.stem_thickness()
    }

    // (2a)^2.
    pub fn squared_arm(&self) -> u64
        ensures { (result ≡ squared (twice_arm self.now.fields)) × (result ≤ squared longest) }
    {
        let arm = self.twice_arm();
        arm * arm
    }

    // 1.4 x base density x tb, in tenths.
    pub fn slab(&self) -> u64
        ensures { (result ≡ 14 * base_density self.now.fields * base_thickness self.now.fields) × (result ≤ 14 * most 11 * most 6) }
    {
        FACTOR
            * record::field(self.fields, BASE_DENSITY)
            * record::field(self.fields, BASE_THICKNESS)
    }
}
