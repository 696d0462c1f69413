// Document 01, "Forces": the totals, each a sum of one column of the table in which a component is weighted by its sort.
ghost use Rattle.std.specs.Prelude.{◌≡◌};
ghost use Rattle.forces.specs.Sorts.{weighted_sum, Small, Light, AllLight, totals_by};

use crate::component::Column;
use crate::table::Table;
use rules::Totals;

const SORT_COUNT: usize = 4;

// What each sort counts, in the order of the sorts.
pub type Weights = [i64; SORT_COUNT];

// What counts, what restores, what overturns, and what M6 takes.
#[derive(Clone, Copy)]
pub struct TotalWeights {
    counted: Weights,
    restored: Weights,
    overturned: Weights,
    balanced: Weights,
}

pub const SERVICE: TotalWeights = TotalWeights {
    counted: [1, 1, 1, 1],
    restored: [1, 0, 0, 0],
    overturned: [0, 0, 1, 1],
    balanced: [1, 1, -1, -1],
};

// 1.4 and 1.6, in tenths.
const DEAD_FACTOR: i64 = 14;

const LIVE_FACTOR: i64 = 16;

pub const FACTORS: Weights = [DEAD_FACTOR, LIVE_FACTOR, DEAD_FACTOR, LIVE_FACTOR];

pub const FACTORED: TotalWeights = TotalWeights {
    counted: FACTORS,
    restored: [DEAD_FACTOR, 0, 0, 0],
    overturned: [0, 0, DEAD_FACTOR, LIVE_FACTOR],
    balanced: [DEAD_FACTOR, LIVE_FACTOR, -DEAD_FACTOR, -LIVE_FACTOR],
};

// Surcharge and live loads down, which rest on the wall.
pub const RESTS: Weights = [0, 1, 0, 0];

// The weighted sum of a column.
pub fn column_sum(table: &Table, weights: Weights, column: Column) -> i64
    requires { Small table.now × Light weights }
    ensures { result ≡ weighted_sum table.now weights column }
{
    let mut sum = 0;
    for component in table {
        sum += weights[component.sort.place()] * component.in_column(column);
    }
    sum
}

// The five totals.
#[tactic(auto, using(crate::proofs::Summed::read_back), unfolding(crate::specs::Sorts::totals_by))]
pub fn totals_by(table: &Table, weights: TotalWeights) -> Totals
    requires { Small table.now × AllLight weights }
    ensures { result ≡ totals_by table.now weights }
{
    Totals {
        R: column_sum(table, weights.counted, Column::Vertical),
        H: column_sum(table, weights.counted, Column::Horizontal),
        Mrest: column_sum(table, weights.restored, Column::Moment),
        Mot: column_sum(table, weights.overturned, Column::Moment),
        M6: column_sum(table, weights.balanced, Column::Moment),
    }
}
