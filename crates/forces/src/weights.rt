// Document 01, "Forces": the weights of a wall that fits, each rounded to the nearest newton.
ghost use Rattle.std.specs.Prelude.{◌≡◌, ◌*◌, ◌≤◌};
ghost use Rattle.whole.specs.Rounding.{rounded_nearest};
ghost use Rattle.rules.specs.Forces.{per_volume, saturated_height, stem_weight, base_weight, downstand_weight, saturated_weight, moist_weight, surcharge_weight};
ghost use Rattle.rules.specs.ToeAndStem.{fill_on_heel};

use crate::loaded::LoadedWall;
use crate::units::PER_AREA;
use record::{
    BASE_DENSITY, BASE_THICKNESS, DOWNSTAND_DEPTH, DOWNSTAND_THICKNESS, HEEL_LENGTH, MOIST_DENSITY,
    SATURATED_DENSITY, STEM_DENSITY, STEM_HEIGHT, STEM_THICKNESS, SURCHARGE, WATER_HEIGHT,
};
use rules::PER_VOLUME;

// 1.4 and 1.6, in tenths.
const FILL_FACTOR: u64 = 14;

const SURCHARGE_FACTOR: u64 = 16;

// The weight of what has two sides in mm and a density, all three small enough to multiply.
fn slab_weight(a: u64, b: u64, density: u64) -> u64
    requires { (a ≤ 20000) × (b ≤ 20000) × (density ≤ 20000) }
    ensures { result ≡ rounded_nearest (a * b * density) per_volume }
{
    whole::rounded_nearest(a * b * density, PER_VOLUME)
}

impl LoadedWall {
    // hsat: how high the water stands in the fill over the heel.
    #[tactic(auto, unfolding(rules::specs::Forces::saturated_height))]
    pub fn saturated_height(&self) -> u64
        ensures { result ≡ saturated_height self.now.wall }
    {
        let base_top = self.field(BASE_THICKNESS) + self.field(DOWNSTAND_DEPTH);
        self.field(WATER_HEIGHT).saturating_sub(base_top)
    }

    #[tactic(auto, unfolding(rules::specs::Forces::stem_weight))]
    pub fn stem_weight(&self) -> u64
        ensures { result ≡ stem_weight self.now.wall }
    {
        slab_weight(
            self.field(STEM_HEIGHT),
            self.field(STEM_THICKNESS),
            self.field(STEM_DENSITY),
        )
    }

    #[tactic(auto, using(rules::proofs::Accepted::base_length_lem), unfolding(rules::specs::Forces::base_weight))]
    pub fn base_weight(&self) -> u64
        ensures { result ≡ base_weight self.now.wall }
    {
        slab_weight(
            record::base_length(self.wall),
            self.field(BASE_THICKNESS),
            self.field(BASE_DENSITY),
        )
    }

    // Of the base's concrete.
    #[tactic(auto, unfolding(rules::specs::Forces::downstand_weight))]
    pub fn downstand_weight(&self) -> u64
        ensures { result ≡ downstand_weight self.now.wall }
    {
        slab_weight(
            self.field(DOWNSTAND_DEPTH),
            self.field(DOWNSTAND_THICKNESS),
            self.field(BASE_DENSITY),
        )
    }

    #[tactic(auto, using(rules::proofs::Sizes::stem_face_lem), unfolding(rules::specs::Forces::saturated_weight))]
    pub fn saturated_weight(&self) -> u64
        ensures { result ≡ saturated_weight self.now.wall }
    {
        slab_weight(
            self.field(HEEL_LENGTH),
            self.saturated_height(),
            self.field(SATURATED_DENSITY),
        )
    }

    #[tactic(auto, unfolding(rules::specs::Forces::moist_weight))]
    pub fn moist_weight(&self) -> u64
        ensures { result ≡ moist_weight self.now.wall }
    {
        let height = self
            .field(STEM_HEIGHT)
            .saturating_sub(self.saturated_height());
        slab_weight(self.field(HEEL_LENGTH), height, self.field(MOIST_DENSITY))
    }

    #[tactic(auto, unfolding(rules::specs::Forces::surcharge_weight))]
    pub fn surcharge_weight(&self) -> u64
        ensures { result ≡ surcharge_weight self.now.wall }
    {
        whole::rounded_nearest(self.field(SURCHARGE) * self.field(HEEL_LENGTH), PER_AREA)
    }

    // What stands on the heel but for its own slab: fill and surcharge, factored, in tenths of a N.
    #[tactic(auto, unfolding(rules::specs::ToeAndStem::fill_on_heel))]
    pub fn fill_on_heel(&self) -> u64
        ensures { result ≡ fill_on_heel self.now.wall }
    {
        let fill = self.saturated_weight() + self.moist_weight();
        FILL_FACTOR * fill + SURCHARGE_FACTOR * self.surcharge_weight()
    }
}
