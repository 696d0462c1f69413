// Document 02, #103: what acts on the heel, the weight on it less what the exact factored block bears below it. A contact is a fraction; the triangle that
// R and M6 make on one of p/q has the peak q^2/p, and so its contact tells all of it.
ghost use Rattle.std.specs.Prelude.{◌≡◌};
ghost use Rattle.rules.specs.JobFile.{base_length};
ghost use Rattle.rules.specs.ToeAndStem.{fill_on_heel, shear_on_heel, moment_on_heel, heel_bearing, heel_action};
ghost use Rattle.rules.proofs.Behind.{full_block, toe_triangle, heel_triangle};
ghost use Rattle.wall.specs.Working.{Made};

use crate::fitting::{Fitting, PER_WEIGHT, PER_WEIGHT_MOMENT};
use crate::trapezium::{PER_MOMENT_BEHIND, PER_SHEAR_BEHIND, Trapezium};
use crate::triangle::ContactLength;
use crate::{members, trapezium, triangle};
use rules::{Action, Block, Kind, PER_VOLUME};

// A full block: what of it stands under lh, and behind the stem's middle.
fn under_full(wall: &Fitting, full: Trapezium) -> Action
    requires { full.l ≡ base_length wall.now.fields }
    ensures { result ≡ heel_bearing wall.now.fields (full_block full.l full.toe full.heel) }
{
    Action {
        shear: full.shear_behind(wall.heel_length()),
        moment: full.moment_behind(wall.twice_heel_arm()),
    }
}

// A triangle from the toe: what of it reaches past the stem's back, and past its middle.
fn under_toe_triangle(wall: &Fitting, contact: ContactLength) -> Action
    ensures { result ≡ heel_bearing wall.now.fields (toe_triangle contact.over contact.under) }
{
    let p = contact.over;
    let q = contact.under;
    let back = wall.toe_length() + wall.stem_thickness();
    let past_back = p.saturating_sub(back * q);
    let past_middle = (2 * p).saturating_sub(wall.twice_arm() * q);
    Action {
        shear: wide::share_down(q, past_back, past_back, PER_SHEAR_BEHIND * p, p),
        moment: wide::share_down(
            past_middle,
            past_middle,
            past_middle,
            PER_MOMENT_BEHIND * p,
            p,
        ),
    }
}

// A triangle from the heel: what stands under lh, or all of it.
fn shear_of_heel_triangle(wall: &Fitting, contact: ContactLength) -> u64
    ensures { result ≡ (heel_bearing wall.now.fields (heel_triangle contact.over contact.under)).shear }
{
    let p = contact.over;
    let q = contact.under;
    let under = wall.heel_length() * q;
    if p <= under {
        return whole::rounded_down(q, PER_SHEAR_BEHIND);
    }
    wide::share_down(q, under, 2 * p - under, PER_SHEAR_BEHIND * p, p)
}

// What stands behind the middle of the stem, or all of it.
fn moment_of_heel_triangle(wall: &Fitting, contact: ContactLength) -> u64
    ensures { result ≡ (heel_bearing wall.now.fields (heel_triangle contact.over contact.under)).moment }
{
    let p = contact.over;
    let q = contact.under;
    let under = wall.twice_heel_arm() * q;
    if 2 * p <= under {
        return whole::rounded_down(3 * under - 2 * p, PER_MOMENT_BEHIND / 4);
    }
    wide::share_down(under, under, 6 * p - under, PER_MOMENT_BEHIND * p, p)
}

// The heel of a wall, under its fill and surcharge, which come in tenths of a N, and over the factored block.
#[derive(Clone, Copy)]
pub struct Heel {
    pub wall: Fitting,
    pub fill: u64,
    pub block: Block,
    ghost filled: { fill ≡ fill_on_heel wall.fields },
    ghost made: { ∥ Made wall.fields block ∥₁ },
}

impl Heel {
    // What bears on the heel, by the kind of the block.
    fn bearing(&self) -> Action
        ensures { result ≡ heel_bearing self.now.wall.fields self.now.block }
    {
        match self.block.kind {
            Kind::Full => under_full(
                &self.wall,
                trapezium::of_block(self.block, self.wall.base_length()),
            ),
            Kind::FromToe => under_toe_triangle(
                &self.wall,
                triangle::contact_length(self.block.contact),
            ),
            Kind::FromHeel => {
                let contact = triangle::contact_length(self.block.contact);
                Action {
                    shear: shear_of_heel_triangle(&self.wall, contact),
                    moment: moment_of_heel_triangle(&self.wall, contact),
                }
            }
            Kind::NoBlock => members::NO_ACTION,
        }
    }

    // The base over lh with its fill and surcharge; rounded up once.
    fn shear_on(&self) -> u64
        ensures { result ≡ shear_on_heel self.now.wall.fields }
    {
        let slab = self.wall.slab() * self.wall.heel_length();
        whole::rounded_up(slab + PER_VOLUME * self.fill, PER_WEIGHT)
    }

    // About the middle of the stem: the base over b at b/2, fill and surcharge at (lh + tw)/2; rounded up once.
    fn moment_on(&self) -> u64
        ensures { result ≡ moment_on_heel self.now.wall.fields }
    {
        let arm = self.wall.twice_heel_arm();
        let slab = self.wall.slab() * (arm * arm);
        let at = self.wall.heel_length() + self.wall.stem_thickness();
        whole::rounded_up(slab + 4 * PER_VOLUME * (self.fill * at), PER_WEIGHT_MOMENT)
    }

    // The shear where the heel begins, and the moment about the stem's middle. Weight is rounded up, and the bearing that relieves the heel down.
    #[tactic(auto, unfolding(rules::specs::ToeAndStem::heel_action))]
    pub fn action(&self) -> Action
        ensures { result ≡ heel_action self.now.wall.fields self.now.block }
    {
        let bearing = self.bearing();
        Action {
            shear: self.shear_on().saturating_sub(bearing.shear),
            moment: self.moment_on().saturating_sub(bearing.moment),
        }
    }
}
