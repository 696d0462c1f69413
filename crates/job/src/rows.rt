// A row of places, into which a wall's loads go one after the other.
ghost use Rattle.std.specs.Prelude.{◌≡◌};
ghost use Rattle.job.specs.Places.{with_place};

use crate::PlaceRow;

// One more number goes into the first place that is free; where none is, the row stays as it was.
pub fn add_place(row: &mut PlaceRow, number: u32)
    ensures { row.new ≡ with_place row.old number }
{
    for place in row.iter_mut() {
        if *place == 0 {
            *place = number;
            return;
        }
    }
}
