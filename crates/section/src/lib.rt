// Document 01, "Toe and stem": a wall's sections, and what a section makes of the action on it, by rules that are one for every section.
#![tactic(auto)]

pub mod of_wall;
mod points;
mod shear;
mod small;
mod steel;

ghost use Rattle.std.specs.Prelude.{◌≡◌};
ghost use Rattle.rules.specs.Beyond.{verdict_of};

use rules::{Action, Member, Section};

// What a section makes of the action on it: the steel that it requires, and whether it fails. One that can't be worked makes nothing of it.
pub fn judged(section: Section, action: Action) -> Option<Member>
    ensures { result ≡ verdict_of section action }
{
    let small = small::workable(section)?;
    Some(Member {
        action,
        steel: steel::steel_of(small, action.moment),
        sheared: shear::shear_fails(small, action.shear),
    })
}
