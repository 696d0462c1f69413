// Document 01, "The bearing block": the blocks that bear a wall under its loads, in service and factored.
#![tactic(auto)]

mod block;

ghost use Rattle.std.specs.Prelude.{◌≡◌};
ghost use Rattle.rules.specs.Beyond.{bearing_of};

use record::{Loads, Wall};
use rules::{Borne, Refusal};

// N/m2 in a kN/m2, and in a tenth of one.
const SERVICE_SCALE: u64 = 1000;

pub const FACTORED_SCALE: u64 = 100;

// The forces on a wall under its loads and the blocks that bear them, or the refusal.
pub fn blocks(wall: Wall, loads: Loads) -> Result<Borne, Refusal>
    ensures { result ≡ bearing_of wall loads }
{
    let forces = forces::forces_on(wall, loads)?;
    let length = record::base_length(wall);
    Ok(Borne {
        forces,
        service: block::pressed_by(SERVICE_SCALE, forces.service, length),
        factored: block::pressed_by(FACTORED_SCALE, forces.factored, length),
    })
}
