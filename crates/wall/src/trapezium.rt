// A full block: a straight line between the pressures at its two ends, in parts of which l^2 make a tenth of a kN/m2.
ghost use Rattle.std.specs.Prelude.{◌≡◌, ◌+◌, ◌-◌, ◌*◌, ◌/◌, ◌≤◌, ◌<◌, ◌^◌};
ghost use Rattle.whole.specs.Parts.{above_zero};
ghost use Rattle.whole.specs.Rounding.{rounded_up, rounded_down};
ghost use Rattle.rules.specs.Bearing.{factored_scale};
ghost use Rattle.wall.specs.Working.{Ends};

use bearing::FACTORED_SCALE;
use rules::Block;

// The shear behind a section is in twentieths, the moment in parts of which 480 make a N mm; so are a triangle's.
pub const PER_SHEAR_BEHIND: u64 = 20;

pub const PER_MOMENT_BEHIND: u64 = 480;

// n x a / b, rounded down, where n x a doesn't fit: the quotient of n is multiplied, and then what is left of it.
fn share(n: u64, a: u64, b: u64) -> u64
    requires { (0 < b) × (n / b * a + a < 2 ^ 64) × (b * a < 2 ^ 64) }
    ensures { result ≡ rounded_down (n * a) b }
{
    n / b * a + n % b * a / b
}

// A full block on a base of length l, by its pressures at the toe and at the heel.
#[derive(Clone, Copy)]
pub struct Trapezium {
    pub l: u64,
    pub toe: u64,
    pub heel: u64,
    ghost ends: { Ends l toe heel },
}

// The trapezium of a block that is full.
pub fn of_block(block: Block, l: u64) -> Trapezium
    requires { Ends l (above_zero block.toe.over) (above_zero block.heel.over) }
    ensures { (result.l ≡ l) × (result.toe ≡ above_zero block.toe.over) × (result.heel ≡ above_zero block.heel.over) }
{
    Trapezium {
        l,
        toe: whole::above_zero(block.toe.over),
        heel: whole::above_zero(block.heel.over),
    }
}

impl Trapezium {
    // The pressure at a point so far from the toe, given twice, so that half a millimetre is exact. In N/m2 rounded up.
    pub fn pressure_at(self, twice: u64) -> u64
        requires { twice ≤ 2 * self.l }
        ensures { result ≡ rounded_up (factored_scale * (self.toe * (2 * self.l - twice) + self.heel * twice)) (2 * self.l * (self.l * self.l)) }
    {
        let pressure = self.toe * (2 * self.l - twice) + self.heel * twice;
        whole::rounded_up(FACTORED_SCALE * pressure, 2 * self.l * (self.l * self.l))
    }

    // What it bears under a heel of lh. By l^3 it is divided step by step.
    pub fn shear_behind(self, lh: u64) -> u64
        requires { lh ≤ self.l }
        ensures { result ≡ rounded_down ((self.toe * lh + self.heel * (2 * self.l - lh)) * lh) (self.l * (20 * (self.l * self.l))) }
    {
        let sum = self.toe * lh + self.heel * (2 * self.l - lh);
        whole::rounded_down(share(sum, lh, self.l), PER_SHEAR_BEHIND * (self.l * self.l))
    }

    // Its moment about the middle of the stem, from which the heel's end is half of `arm` away.
    pub fn moment_behind(self, arm: u64) -> u64
        requires { arm ≤ 2 * self.l }
        ensures { result ≡ rounded_down ((self.toe * arm + self.heel * (6 * self.l - arm)) * (arm * arm)) (self.l * self.l * (480 * self.l)) }
    {
        let sum = self.toe * arm + self.heel * (6 * self.l - arm);
        whole::rounded_down(
            share(sum, arm * arm, self.l * self.l),
            PER_MOMENT_BEHIND * self.l,
        )
    }
}
