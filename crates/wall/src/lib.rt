// Document 01, "The sheet line": one wall under its loads, worked to the nineteen numbers of its line.
#![tactic(auto)]

mod fitting;
mod heel;
mod members;
mod toe;
mod trapezium;
mod triangle;

ghost use Rattle.std.specs.Prelude.{◌≡◌, T, nat_abs};
ghost use Rattle.whole.proofs.Lists.{All};
ghost use Rattle.rules.specs.JobFile.{wall_fits};
ghost use Rattle.rules.specs.ToeAndStem.{fill_on_heel};
ghost use Rattle.rules.specs.SheetLine.{numbers_by};
ghost use Rattle.rules.specs.Beyond.{line_of};
ghost use Rattle.rules.proofs.Sizes.{Small};
ghost use Rattle.wall.specs.Working.{Bears, worked_over};

use fitting::Fitting;
use heel::Heel;
use record::{Loads, Wall};
use rules::{Borne, LineNumbers, Refusal, WorkedWall};
use toe::Toe;

// A wall that fits, worked: what bears it, and its toe, its stem and its heel.
#[tactic(auto, unfolding(crate::specs::Working::worked_over))]
fn worked(wall: Wall, borne: Borne) -> WorkedWall
    requires { T (wall_fits wall) × Bears wall borne.factored × (borne.forces.fill ≡ fill_on_heel wall) }
    ensures { result ≡ worked_over wall borne }
{
    let forces = borne.forces;
    let factored = borne.factored;
    let fitting = Fitting { fields: wall };
    let toe = Toe {
        wall: fitting,
        pressed: factored,
    };
    let heel = Heel {
        wall: fitting,
        fill: forces.fill,
        block: factored.block,
    };
    WorkedWall {
        totals: forces.service,
        sliding: forces.sliding,
        service: borne.service,
        factored,
        toe: members::toe_over(&toe),
        stem: members::stem_under(&fitting, forces.stem),
        heel: members::heel_over(&heel),
    }
}

// The numbers of a line, in its order.
#[tactic(auto, unfolding(rules::specs::SheetLine::numbers_by))]
fn numbers_of(number: u32, wall: Wall, worked: WorkedWall) -> LineNumbers
    requires { All (λ z. Small (nat_abs z)) (numbers_by number wall worked) }
    ensures { result ≡ numbers_by number wall worked }
{
    let failures = checks::failures_of(wall, worked);
    [
        i64::from(number),
        i64::from(failures),
        worked.totals.R,
        worked.totals.H,
        worked.sliding.propping as i64,
        worked.totals.M6,
        worked.service.toe as i64,
        worked.service.heel as i64,
        worked.factored.toe as i64,
        worked.factored.heel as i64,
        worked.toe.action.shear as i64,
        worked.toe.action.moment as i64,
        worked.toe.steel.required as i64,
        worked.stem.action.shear as i64,
        worked.stem.action.moment as i64,
        worked.stem.steel.required as i64,
        worked.heel.action.shear as i64,
        worked.heel.action.moment as i64,
        worked.heel.steel.required as i64,
    ]
}

// The line of a wall under its loads, with the number that it is given. An absent load is a row of zeros. Where the wall or a load is out of
// range there is no line, but the refusal that a file of just these would get, so that the wall is number 1 there.
pub fn line(number: u32, wall: Wall, loads: Loads) -> Result<LineNumbers, Refusal>
    ensures { result ≡ line_of number wall loads }
{
    let borne = bearing::blocks(wall, loads)?;
    Ok(numbers_of(number, wall, worked(wall, borne)))
}
