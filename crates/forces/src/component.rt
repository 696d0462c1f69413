// Document 01, "Forces": a component of the table: its sort, its vertical and its horizontal force in N, and its moment in sixths of a N mm.
ghost use Rattle.std.specs.Prelude.{◌≡◌, ◌≤◌, ◌*◌, pos, ◌*ℤ◌};
ghost use Rattle.rules.specs.Forces.{◌less◌};
ghost use Rattle.forces.specs.Components.{place_of, cell};

// A weight or a push, dead or live.
#[derive(Clone, Copy)]
pub enum Sort {
    DeadWeight,
    LiveWeight,
    DeadPush,
    LivePush,
}

impl Sort {
    // Its place among the sorts.
    pub fn place(self) -> usize
        ensures { result ≡ place_of self }
    {
        self as usize
    }
}

// The columns of the table.
#[derive(Clone, Copy)]
pub enum Column {
    Vertical,
    Horizontal,
    Moment,
}

#[derive(Clone, Copy)]
pub struct Component {
    pub sort: Sort,
    pub vertical: i64,
    pub horizontal: i64,
    pub moment: i64,
}

// A number as an i64, well within its range.
fn signed(n: u64) -> i64
    requires { n ≤ 300000000000 }
    ensures { result ≡ pos n }
{
    n as i64
}

impl Component {
    // A component with nothing in it.
    pub const NOTHING: Component = Component {
        sort: Sort::DeadWeight,
        vertical: 0,
        horizontal: 0,
        moment: 0,
    };

    // A force down, with six times its distance from the toe.
    pub fn down(sort: Sort, force: u64, sixfold: u64) -> Component
        requires { (force ≤ 3000000) × (sixfold ≤ 100000) }
        ensures { result ≡ record { sort = sort; vertical = pos force; horizontal = pos 0; moment = pos (force * sixfold) } }
    {
        Component {
            sort,
            vertical: signed(force),
            horizontal: 0,
            moment: signed(force * sixfold),
        }
    }

    // A horizontal force, with six times its height above a foot, and six times how deep the foot lies below the base's underside.
    pub fn across(sort: Sort, force: u64, sixfold: u64, foot: u64) -> Component
        requires { (force ≤ 3000000) × (sixfold ≤ 90000) × (foot ≤ 10000) }
        ensures { result ≡ record { sort = sort; vertical = pos 0; horizontal = pos force; moment = pos force *ℤ (sixfold less foot) } }
    {
        let push = signed(force);
        let lever = signed(sixfold) - signed(foot);
        Component {
            sort,
            vertical: 0,
            horizontal: push,
            moment: push * lever,
        }
    }

    // What stands in a column.
    pub fn in_column(&self, column: Column) -> i64
        ensures { result ≡ cell column self.now }
    {
        match column {
            Column::Vertical => self.vertical,
            Column::Horizontal => self.horizontal,
            Column::Moment => self.moment,
        }
    }
}
