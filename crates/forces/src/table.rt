// Document 01, "Forces": the component table: the weights, the pushes, the dead part of every load and then the live part of every load.
ghost use Rattle.std.specs.Prelude.{◌≡◌, ◌≤◌};
ghost use Rattle.rules.specs.JobFile.{greatest_load, dead_load, live_load};
ghost use Rattle.rules.specs.Forces.{table};
ghost use Rattle.rules.proofs.Accepted.{most};
ghost use Rattle.forces.specs.Components.{all_in_code};
ghost use Rattle.forces.specs.Tables.{LoadSmall, LoadsSmall, part_of, dead_part, live_part, rows_in};

use crate::component::{Component, Sort};
use crate::face::Face;
use crate::loaded::LoadedWall;
use crate::rows::{PUSHES, PushRows, WEIGHTS, WeightRows};
use record::{
    DEAD, DIRECTION, DOWNSTAND_DEPTH, LIVE, Load, Loads, MOST_LOADS_ON_WALL, POSITION, WATER_HEIGHT,
};

const FIRST_DEAD: usize = WEIGHTS + PUSHES;

const FIRST_LIVE: usize = FIRST_DEAD + MOST_LOADS_ON_WALL;

pub const COMPONENTS: usize = FIRST_LIVE + MOST_LOADS_ON_WALL;

pub type Table = [Component; COMPONENTS];

// A part of a load: a weight where the load acts down, and a push where it acts across.
#[tactic(auto, unfolding(crate::specs::Tables::part_of, rules::specs::JobFile::is_down))]
fn part_of(load: Load, force: u32, weight: Sort, push: Sort) -> Component
    requires { (force ≤ greatest_load) × LoadSmall load }
    ensures { result ≡ part_of weight push force load }
{
    let force = u64::from(force);
    let sixfold = 6 * u64::from(load[POSITION]);
    if load[DIRECTION] == 0 {
        Component::down(weight, force, sixfold)
    } else {
        Component::across(push, force, sixfold, 0)
    }
}

// A load's dead part.
fn dead_part(load: Load) -> Component
    requires { LoadSmall load }
    ensures { result ≡ dead_part load }
{
    part_of(load, load[DEAD], Sort::DeadWeight, Sort::DeadPush)
}

// And its live part.
fn live_part(load: Load) -> Component
    requires { LoadSmall load }
    ensures { result ≡ live_part load }
{
    part_of(load, load[LIVE], Sort::LiveWeight, Sort::LivePush)
}

// The components one behind the other.
pub fn filled(weights: &WeightRows, pushes: &PushRows, loads: &Loads) -> Table
    requires { LoadsSmall loads.now }
    ensures { result ≡ rows_in weights.now pushes.now loads.now }
{
    let mut table = [Component::NOTHING; COMPONENTS];
    table[..WEIGHTS].copy_from_slice(weights);
    table[WEIGHTS..FIRST_DEAD].copy_from_slice(pushes);
    for (i, load) in loads.iter().enumerate() {
        table[FIRST_DEAD + i] = dead_part(*load);
        table[FIRST_LIVE + i] = live_part(*load);
    }
    table
}

impl LoadedWall {
    // The wall's table at a coefficient.
    pub fn table_at(&self, coefficient: u64) -> Table
        requires { coefficient ≤ most 16 }
        ensures { result ≡ all_in_code (table coefficient self.now.wall self.now.loads) }
    {
        let face = Face {
            coefficient,
            height: record::wall_height(self.wall),
            water: self.field(WATER_HEIGHT),
            foot: self.field(DOWNSTAND_DEPTH),
        };
        filled(&self.weight_rows(), &self.push_rows(face), &self.loads)
    }
}
