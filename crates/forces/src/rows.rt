// Document 01, "Forces": the components that every wall has, its weights and the pushes on a face.
ghost use Rattle.std.specs.Prelude.{◌≡◌};
ghost use Rattle.rules.specs.Forces.{over_heel, weight_rows, push_rows};
ghost use Rattle.forces.specs.Components.{all_in_code};

use crate::component::{Component, Sort};
use crate::face::Face;
use crate::loaded::LoadedWall;
use record::{DOWNSTAND_POSITION, DOWNSTAND_THICKNESS, HEEL_LENGTH, STEM_THICKNESS, TOE_LENGTH};

pub const WEIGHTS: usize = 6;

pub type WeightRows = [Component; WEIGHTS];

// The stem's table has pushes and loads alone: nothing stands in the places of its weights, of which the surcharge's is a live one.
pub const NO_WEIGHTS: WeightRows = [
    Component::NOTHING,
    Component::NOTHING,
    Component::NOTHING,
    Component::NOTHING,
    Component::NOTHING,
    Component {
        sort: Sort::LiveWeight,
        ..Component::NOTHING
    },
];

pub const PUSHES: usize = 5;

pub type PushRows = [Component; PUSHES];

impl LoadedWall {
    // Six times the distance of the heel's middle from the toe.
    #[tactic(auto, using(rules::proofs::Accepted::base_length_lem), unfolding(rules::specs::JobFile::base_length))]
    fn over_heel(&self) -> u64
        ensures { result ≡ over_heel self.now.wall }
    {
        6 * record::base_length(self.wall) - 3 * self.field(HEEL_LENGTH)
    }

    // Stem, base, downstand, saturated fill, moist fill and surcharge; the last three stand over the heel.
    #[tactic(auto, using(rules::proofs::Accepted::base_length_lem, rules::proofs::Sizes::weighed), unfolding(rules::specs::Forces::weight_rows))]
    pub fn weight_rows(&self) -> WeightRows
        ensures { result ≡ all_in_code (weight_rows self.now.wall) }
    {
        let heel = self.over_heel();
        let stem = 6 * self.field(TOE_LENGTH) + 3 * self.field(STEM_THICKNESS);
        let downstand = 6 * self.field(DOWNSTAND_POSITION) + 3 * self.field(DOWNSTAND_THICKNESS);
        [
            Component::down(Sort::DeadWeight, self.stem_weight(), stem),
            Component::down(
                Sort::DeadWeight,
                self.base_weight(),
                3 * record::base_length(self.wall),
            ),
            Component::down(Sort::DeadWeight, self.downstand_weight(), downstand),
            Component::down(Sort::DeadWeight, self.saturated_weight(), heel),
            Component::down(Sort::DeadWeight, self.moist_weight(), heel),
            Component::down(Sort::LiveWeight, self.surcharge_weight(), heel),
        ]
    }

    // Surcharge, moist fill above water and below, saturated fill, and water.
    #[tactic(auto, using(rules::proofs::Sizes::pushed), unfolding(rules::specs::Forces::push_rows))]
    pub fn push_rows(&self, face: Face) -> PushRows
        ensures { result ≡ all_in_code (push_rows self.now.wall face.coefficient face.height face.water face.foot) }
    {
        let h = face.height;
        let hw = face.water;
        let foot = 6 * face.foot;
        [
            Component::across(Sort::LivePush, self.surcharge_push(face), 3 * h, foot),
            Component::across(
                Sort::DeadPush,
                self.moist_push(face),
                2 * (h + 2 * hw),
                foot,
            ),
            Component::across(Sort::DeadPush, self.moist_push_below(face), 3 * hw, foot),
            Component::across(Sort::DeadPush, self.saturated_push(face), 2 * hw, foot),
            Component::across(Sort::DeadPush, face.water_push(), 2 * hw, foot),
        ]
    }
}
