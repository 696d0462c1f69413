// Document 01, "Toe and stem": what acts on the toe, the bearing below it less its own weight.
ghost use Rattle.std.specs.Prelude.{◌≡◌, ◌*◌, ◌≤◌};
ghost use Rattle.rules.specs.Bearing.{greatest_peak};
ghost use Rattle.rules.specs.declared.Kind.TheVariants.{Full, FromToe, FromHeel};
ghost use Rattle.rules.specs.ToeAndStem.{straight_shear, straight_moment, bearing_by, toe_bearing, shear_of_weight, moment_of_weight, toe_action};
ghost use Rattle.wall.specs.Working.{Bears};

use crate::fitting::{Fitting, PER_WEIGHT, PER_WEIGHT_MOMENT};
use crate::triangle::PER_PRESSURE;
use crate::{members, trapezium, triangle};
use rules::{Action, Kind, Pressed};

// The shear of a straight line takes half of the product.
const PER_SHEAR_BEFORE: u64 = 2 * PER_PRESSURE;

// The moment takes a sixth of it, and a quarter for (2a)^2.
const PER_MOMENT_BEFORE: u64 = 4 * 6 * PER_PRESSURE;

// What the toe weighs between its end and the stem.
#[tactic(auto, unfolding(rules::specs::ToeAndStem::shear_of_weight))]
fn shear_of_weight(wall: &Fitting) -> u64
    ensures { result ≡ shear_of_weight wall.now.fields }
{
    whole::rounded_down(wall.slab() * wall.toe_length(), PER_WEIGHT)
}

// Its moment about the stem's middle.
#[tactic(auto, unfolding(rules::specs::ToeAndStem::moment_of_weight))]
fn moment_of_weight(wall: &Fitting) -> u64
    ensures { result ≡ moment_of_weight wall.now.fields }
{
    whole::rounded_down(wall.slab() * wall.squared_arm(), PER_WEIGHT_MOMENT)
}

// Bearing by a straight line from the toe's end to the middle of the stem: of the pressures at the end, where the stem begins, and below its middle.
#[tactic(auto, unfolding(rules::specs::ToeAndStem::straight_shear, rules::specs::ToeAndStem::straight_moment))]
fn straight(wall: &Fitting, end: u64, face: u64, middle: u64) -> Action
    requires { (end ≤ greatest_peak) × (face ≤ greatest_peak) × (middle ≤ greatest_peak) }
    ensures { (result.shear ≡ straight_shear wall.now.fields end face) × (result.moment ≡ straight_moment wall.now.fields end middle) }
{
    Action {
        shear: whole::rounded_up((end + face) * wall.toe_length(), PER_SHEAR_BEFORE),
        moment: whole::rounded_up((2 * end + middle) * wall.squared_arm(), PER_MOMENT_BEFORE),
    }
}

// The toe of a wall, over the factored block that bears it and the pressures reported of that.
#[derive(Clone, Copy)]
pub struct Toe {
    pub wall: Fitting,
    pub pressed: Pressed,
    ghost bears: { ∥ Bears wall.fields pressed ∥₁ },
}

impl Toe {
    // Over a full block the line runs between its exact ends. At the toe's end it has the reported pressure.
    fn over_full(&self) -> Action
        requires { self.now.pressed.block.kind ≡ Full }
        ensures { result ≡ bearing_by Full self.now.wall.fields self.now.pressed.block }
    {
        let line = trapezium::of_block(self.pressed.block, self.wall.base_length());
        let at_face = line.pressure_at(2 * self.wall.toe_length());
        let at_middle = line.pressure_at(self.wall.twice_arm());
        straight(&self.wall, self.pressed.toe, at_face, at_middle)
    }

    // Over a triangle from the toe it falls from the reported peak, where the contact reaches the middle of the stem. Else the triangle itself bears.
    fn over_toe_triangle(&self) -> Action
        requires { self.now.pressed.block.kind ≡ FromToe }
        ensures { result ≡ bearing_by FromToe self.now.wall.fields self.now.pressed.block }
    {
        let l = self.wall.base_length();
        let triangle = triangle::on_base(l, self.pressed.toe, self.pressed.block.contact);
        let contact = triangle.contact;
        let lt = self.wall.toe_length();
        let arm = self.wall.twice_arm();
        if 2 * contact.over < arm * contact.under {
            return Action {
                shear: triangle.ended_shear(lt),
                moment: triangle.ended_moment(arm),
            };
        }
        let at_face = triangle.pressure_at(2 * lt);
        let at_middle = triangle.pressure_at(arm);
        straight(&self.wall, triangle.peak, at_face, at_middle)
    }

    // A triangle from the heel bears by itself.
    fn over_heel_triangle(&self) -> Action
        requires { self.now.pressed.block.kind ≡ FromHeel }
        ensures { result ≡ bearing_by FromHeel self.now.wall.fields self.now.pressed.block }
    {
        let l = self.wall.base_length();
        let triangle = triangle::on_base(l, self.pressed.heel, self.pressed.block.contact);
        Action {
            shear: triangle.begun_shear(self.wall.toe_length()),
            moment: triangle.begun_moment(self.wall.twice_arm()),
        }
    }

    // What bears on the toe, by the kind of the block.
    #[tactic(auto, unfolding(rules::specs::ToeAndStem::toe_bearing, rules::specs::ToeAndStem::bearing_by))]
    fn bearing(&self) -> Action
        ensures { result ≡ toe_bearing self.now.wall.fields self.now.pressed.block }
    {
        match self.pressed.block.kind {
            Kind::Full => self.over_full(),
            Kind::FromToe => self.over_toe_triangle(),
            Kind::FromHeel => self.over_heel_triangle(),
            Kind::NoBlock => members::NO_ACTION,
        }
    }

    // The shear where the stem begins, and the moment about the stem's middle. Bearing is rounded up, and the weight that relieves the toe down.
    #[tactic(auto, unfolding(rules::specs::ToeAndStem::toe_action))]
    pub fn action(&self) -> Action
        ensures { result ≡ toe_action self.now.wall.fields self.now.pressed.block }
    {
        let bearing = self.bearing();
        Action {
            shear: bearing.shear.saturating_sub(shear_of_weight(&self.wall)),
            moment: bearing.moment.saturating_sub(moment_of_weight(&self.wall)),
        }
    }
}
