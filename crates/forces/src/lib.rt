// Document 01, "Forces" and "Toe and stem": the component tables of a wall under its loads, and all that they give: the totals in service and factored,
// what holds the wall against sliding, what acts on its stem, and what fills its heel.
#![tactic(auto)]

mod component;
mod face;
mod loaded;
mod pushes;
mod rows;
mod sliding;
mod stem;
mod sums;
mod table;
mod units;
mod weights;

ghost use Rattle.std.specs.Prelude.{◌≡◌};
ghost use Rattle.rules.specs.Beyond.{worked_forces, forces_of};

use component::Column;
use loaded::LoadedWall;
use record::{ACTIVE_COEFFICIENT, Loads, REST_COEFFICIENT, Wall};
use rules::{Forces, Refusal};
use sums::{FACTORED, RESTS, SERVICE};

impl LoadedWall {
    // The forces. Service takes Ka, and the factored case K0.
    fn worked(&self) -> Forces
        ensures { result ≡ worked_forces self.now.wall self.now.loads }
    {
        let active = self.table_at(self.field(ACTIVE_COEFFICIENT));
        let at_rest = self.table_at(self.field(REST_COEFFICIENT));
        let service = sums::totals_by(&active, SERVICE);
        let factored = sums::totals_by(&at_rest, FACTORED);
        let resting = sums::column_sum(&active, RESTS, Column::Vertical);
        let sliding = self.held(service.R - resting, service.H);
        let stem = self.stem_action();
        let fill = self.fill_on_heel();
        Forces {
            service,
            factored,
            sliding,
            stem,
            fill,
        }
    }
}

// The forces on a wall under its loads; or the refusal that a file of this one wall and these loads would get. An absent load is a row of zeros.
pub fn forces_on(wall: Wall, loads: Loads) -> Result<Forces, Refusal>
    ensures { result ≡ forces_of wall loads }
{
    record::examined(wall, loads)?;
    let loaded = LoadedWall { wall, loads };
    Ok(loaded.worked())
}
