// Document 01, "Toe and stem", and document 02, #103: the toe, the stem and the heel of a wall that fits, each with what acts on it and what its section makes of that.
ghost use Rattle.std.specs.Prelude.{◌≡◌, T};
ghost use Rattle.rules.specs.ToeAndStem.{stem_section, member_under, toe_under, heel_under};
ghost use Rattle.rules.specs.Beyond.{is_workable};

use crate::fitting::Fitting;
use crate::heel::Heel;
use crate::toe::Toe;
use rules::{Action, Member, Section, Steel};

// Nothing acts.
pub const NO_ACTION: Action = Action {
    shear: 0,
    moment: 0,
};

// Figures of 0, and no check made.
const NO_MEMBER: Member = Member {
    action: NO_ACTION,
    steel: Steel {
        required: 0,
        fails: false,
    },
    sheared: false,
};

// What a section of a wall makes of the action on it: each can be worked.
fn member_of(section: Section, action: Action) -> Member
    requires { T (is_workable section) }
    ensures { result ≡ member_under section action }
{
    section::judged(section, action).unwrap()
}

// The toe; with no toe or no block it has no figure, and no check is made of it.
pub fn toe_over(toe: &Toe) -> Member
    ensures { result ≡ toe_under toe.now.wall.fields toe.now.pressed.block }
{
    if toe.wall.toe_length() == 0 || !checks::is_given(toe.pressed.block) {
        return NO_MEMBER;
    }
    member_of(section::of_wall::toe_section(toe.wall.fields), toe.action())
}

// The stem under what acts on it.
pub fn stem_under(wall: &Fitting, action: Action) -> Member
    ensures { result ≡ member_under (stem_section wall.now.fields) action }
{
    member_of(section::of_wall::stem_section(wall.fields), action)
}

// The heel; with no heel or no block it has no figure, and no check is made of it.
pub fn heel_over(heel: &Heel) -> Member
    ensures { result ≡ heel_under heel.now.wall.fields heel.now.block }
{
    if heel.wall.heel_length() == 0 || !checks::is_given(heel.block) {
        return NO_MEMBER;
    }
    member_of(
        section::of_wall::heel_section(heel.wall.fields),
        heel.action(),
    )
}
