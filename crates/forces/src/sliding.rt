// Document 01, "Forces": what holds a wall that fits against sliding, in service figures. Passive force and friction are rounded down.
ghost use Rattle.std.specs.Prelude.{◌≡◌, pos, ◌<ℤ◌};
ghost use Rattle.rules.specs.Forces.{passive, friction_under, sliding_under};
ghost use Rattle.rules.proofs.Sizes.{heaviest};

use crate::loaded::LoadedWall;
use crate::units::{PER_SQUARE_AT_K, THOUSANDTHS};
use record::{
    BASE_THICKNESS, COVER_IN_FRONT, DOWNSTAND_DEPTH, EXCAVATION, FRICTION_TANGENT, KIND,
    PASSIVE_COEFFICIENT, SOIL_DENSITY,
};
use rules::Sliding;

const PROPPED: u64 = 1;

impl LoadedWall {
    // The passive force on the depth that is left in front of the wall.
    #[tactic(auto, using(whole::proofs::Factors::two_fit, whole::proofs::Factors::pairs_fit), unfolding(rules::specs::Forces::passive, rules::specs::Forces::passive_depth))]
    fn passive_force(&self) -> u64
        ensures { result ≡ passive self.now.wall }
    {
        let covered = self.field(COVER_IN_FRONT)
            + self.field(BASE_THICKNESS)
            + self.field(DOWNSTAND_DEPTH);
        let depth = whole::excess(covered, self.field(EXCAVATION));
        whole::rounded_down(
            self.field(PASSIVE_COEFFICIENT) * self.field(SOIL_DENSITY) * (depth * depth),
            PER_SQUARE_AT_K,
        )
    }

    // The friction under what lasts of R.
    fn friction_under(&self, lasting: i64) -> u64
        requires { lasting <ℤ pos heaviest }
        ensures { result ≡ friction_under self.now.wall lasting }
    {
        whole::rounded_down(
            self.field(FRICTION_TANGENT) * whole::above_zero(lasting),
            THOUSANDTHS,
        )
    }

    // An unpropped wall slides where less holds it than pushes it; a propped one leaves the rest to its prop.
    pub fn held(&self, lasting: i64, pushing: i64) -> Sliding
        requires { lasting <ℤ pos heaviest }
        ensures { result ≡ sliding_under self.now.wall lasting pushing }
    {
        let passive = self.passive_force();
        let friction = self.friction_under(lasting);
        let holding = passive + friction;
        let push = whole::above_zero(pushing);
        if self.field(KIND) == PROPPED {
            Sliding {
                passive,
                friction,
                slides: false,
                propping: push.saturating_sub(holding),
            }
        } else {
            Sliding {
                passive,
                friction,
                slides: holding < push,
                propping: 0,
            }
        }
    }
}
