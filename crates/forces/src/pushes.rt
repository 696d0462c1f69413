// Document 01, "Forces": the pushes on a face at its coefficient, each rounded up.
ghost use Rattle.std.specs.Prelude.{◌≡◌, ◌*◌, ◌<◌, ◌^◌};
ghost use Rattle.whole.specs.Rounding.{rounded_up};
ghost use Rattle.rules.specs.Forces.{surcharge_push, moist_push, moist_push_below, saturated_push, water_push};

use crate::face::Face;
use crate::loaded::LoadedWall;
use crate::units::{PER_AREA, PER_SQUARE_AT_K, THOUSANDTHS};
use record::{MOIST_DENSITY, SATURATED_DENSITY, SURCHARGE};
use rules::PER_VOLUME;

// What water weighs, in 10 N/m3.
const WATER_DENSITY: u64 = 981;

// With a coefficient, an area and a volume.
const PER_AREA_AT_K: u64 = THOUSANDTHS * PER_AREA;

const PER_VOLUME_AT_K: u64 = THOUSANDTHS * PER_VOLUME;

// A squared height that is yet to be halved, of water, which has no coefficient.
const PER_SQUARE: u64 = 2 * PER_VOLUME;

// Every push is rounded up.
fn push_of(product: u64, per: u64) -> u64
    ensures { result ≡ rounded_up product per }
{
    whole::rounded_up(product, per)
}

// A coefficient, a density and two lengths, all small enough to multiply.
fn push(k: u64, density: u64, a: u64, b: u64, per: u64) -> u64
    requires { (k < 2 ^ 15) × (density < 2 ^ 15) × (a < 2 ^ 15) × (b < 2 ^ 15) }
    ensures { result ≡ rounded_up (k * density * (a * b)) per }
{
    push_of(k * density * (a * b), per)
}

impl LoadedWall {
    #[tactic(auto, unfolding(rules::specs::Forces::surcharge_push))]
    pub fn surcharge_push(&self, face: Face) -> u64
        ensures { result ≡ surcharge_push self.now.wall face.coefficient face.height }
    {
        push_of(
            face.coefficient * self.field(SURCHARGE) * face.height,
            PER_AREA_AT_K,
        )
    }

    // Moist fill above the water.
    #[tactic(auto, unfolding(rules::specs::Forces::moist_push))]
    pub fn moist_push(&self, face: Face) -> u64
        ensures { result ≡ moist_push self.now.wall face.coefficient face.height face.water }
    {
        let above = face.height - face.water;
        push(
            face.coefficient,
            self.field(MOIST_DENSITY),
            above,
            above,
            PER_SQUARE_AT_K,
        )
    }

    // Moist fill above the water, as it bears on what stands below.
    pub fn moist_push_below(&self, face: Face) -> u64
        ensures { result ≡ moist_push_below self.now.wall face.coefficient face.height face.water }
    {
        let density = self.field(MOIST_DENSITY);
        push(
            face.coefficient,
            density,
            face.height - face.water,
            face.water,
            PER_VOLUME_AT_K,
        )
    }

    // Saturated fill, as much as it weighs under water.
    #[tactic(auto, unfolding(rules::specs::Forces::saturated_push))]
    pub fn saturated_push(&self, face: Face) -> u64
        ensures { result ≡ saturated_push self.now.wall face.coefficient face.water }
    {
        let buoyant = self.field(SATURATED_DENSITY) - WATER_DENSITY;
        push(
            face.coefficient,
            buoyant,
            face.water,
            face.water,
            PER_SQUARE_AT_K,
        )
    }
}

impl Face {
    #[tactic(auto, unfolding(rules::specs::Forces::water_push))]
    pub fn water_push(self) -> u64
        ensures { result ≡ water_push self.water }
    {
        push_of(WATER_DENSITY * (self.water * self.water), PER_SQUARE)
    }
}
