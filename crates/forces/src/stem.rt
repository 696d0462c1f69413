// Document 01, "Toe and stem": the stem's own component table, with moments about the top of the base, and what acts on the stem there.
ghost use Rattle.std.specs.Prelude.{◌≡◌, map};
ghost use Rattle.rules.specs.JobFile.{base_thickness};
ghost use Rattle.rules.specs.ToeAndStem.{stem_action};
ghost use Rattle.forces.specs.Components.{all_in_code};
ghost use Rattle.forces.specs.Tables.{reaches_stem, on_stem, stem_in_place};

use crate::component::Column;
use crate::face::Face;
use crate::loaded::LoadedWall;
use crate::sums::FACTORS;
use crate::table::Table;
use crate::{rows, sums, table};
use record::{BASE_THICKNESS, DIRECTION, Load, Loads, POSITION, REST_COEFFICIENT, STEM_HEIGHT};
use rules::Action;

// The sums are in tenths of a N, and in tenths of a sixth of a N mm.
const PER_FORCE: u64 = 10;

const PER_MOMENT: u64 = 60;

// A horizontal load at or above the base's top.
#[tactic(auto, unfolding(crate::specs::Tables::reaches_stem, rules::specs::JobFile::is_down))]
fn reaches_stem(load: Load, thickness: u32) -> bool
    ensures { result ≡ reaches_stem thickness load }
{
    load[DIRECTION] != 0 && thickness <= load[POSITION]
}

// A load from the base's top; one that doesn't reach the stem has no newtons there.
fn on_stem(load: Load, thickness: u32) -> Load
    ensures { result ≡ on_stem thickness load }
{
    let [direction, position, dead, live] = load;
    if reaches_stem(load, thickness) {
        [direction, position - thickness, dead, live]
    } else {
        [direction, 0, 0, 0]
    }
}

impl LoadedWall {
    // The loads as the stem has them.
    fn loads_on_stem(&self) -> Loads
        ensures { result ≡ map (on_stem (base_thickness self.now.wall)) self.now.loads }
    {
        let thickness = self.wall[BASE_THICKNESS];
        self.loads.map(
            |load: Load| -> Load
                ensures { result ≡ on_stem thickness load }
            { on_stem(load, thickness) },
        )
    }

    // The stem's table: pushes at K0 on the stem's height, with the water that stands above the base's top. Its foot is there, and a downstand lies below it.
    fn table_of_stem(&self) -> Table
        ensures { result ≡ all_in_code (stem_in_place self.now.wall self.now.loads) }
    {
        let face = Face {
            coefficient: self.field(REST_COEFFICIENT),
            height: self.field(STEM_HEIGHT),
            water: self.saturated_height(),
            foot: 0,
        };
        table::filled(
            &rows::NO_WEIGHTS,
            &self.push_rows(face),
            &self.loads_on_stem(),
        )
    }

    // What acts on the stem at the top of the base, factored and rounded up. A prop at the base gives it no relief.
    pub fn stem_action(&self) -> Action
        ensures { result ≡ stem_action self.now.wall self.now.loads }
    {
        let table = self.table_of_stem();
        let shear = sums::column_sum(&table, FACTORS, Column::Horizontal);
        let moment = sums::column_sum(&table, FACTORS, Column::Moment);
        Action {
            shear: whole::rounded_up(whole::above_zero(shear), PER_FORCE),
            moment: whole::rounded_up(whole::above_zero(moment), PER_MOMENT),
        }
    }
}
