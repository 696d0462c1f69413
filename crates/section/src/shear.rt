// Document 01, "Toe and stem": the shear of a section. The stress 2V / 1000D is compared multiplied out.
ghost use Rattle.std.specs.Prelude.{◌≡◌};
ghost use Rattle.rules.specs.ToeAndStem.{shear_fails};

use crate::small::Small;

// Half of the greatest stress that any concrete may have, in 1/1000 N/mm2. V is held to it before it is doubled, since 2V may not fit.
const HALF_GREATEST_STRESS: u64 = 2500;

// 0.8, in thousandths. The third test is worked as (2V)^2 <= fcu x (800D)^2, both sides divided by 100, since document 01's may not fit.
const ROOT_FACTOR: u64 = 800;

// The stress is at the concrete's own or above it, is more than 5 N/mm2, or is more than 0.8 of the root of fcu.
pub fn shear_fails(small: Small, v: u64) -> bool
    ensures { result ≡ shear_fails small.section v }
{
    let section = small.section;
    let d = small.twice_depth();
    if HALF_GREATEST_STRESS * d < v {
        return true;
    }
    let twice = 2 * v;
    let root = ROOT_FACTOR * d;
    !((twice < section.cage.stress * d) & (twice * twice <= section.concrete * (root * root)))
}
