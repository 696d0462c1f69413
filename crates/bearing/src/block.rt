// Document 01, "The bearing block": the block that R and M6 make on a base of length l. Nothing is divided before a pressure is reported.
ghost use Rattle.std.specs.Prelude.{◌≡◌, ◌*◌, ◌≤◌, ◌<◌, ◌^◌, pos, ◌≤ℤ◌};
ghost use Rattle.rules.specs.declared.Kind.TheVariants.{Full, FromToe, FromHeel};
ghost use Rattle.whole.specs.Parts.{above_zero};
ghost use Rattle.rules.specs.Bearing.{◌over◌, of_kind, block_of, reported, given, pressed_by};
ghost use Rattle.bearing.specs.Within.{Within, Workable, Reportable};

use rules::{Block, Fraction, Kind, Pressed, Totals};

// A block that reports more isn't given, in N/m2.
const GREATEST_PEAK: u64 = 2000000;

const NOTHING: Fraction = Fraction { over: 0, under: 1 };

const NO_BLOCK: Block = Block {
    kind: Kind::NoBlock,
    toe: NOTHING,
    heel: NOTHING,
    contact: NOTHING,
};

// A fraction of whole numbers.
fn over(a: u64, b: u64) -> Fraction
    requires { (a < 2 ^ 63) × (b < 2 ^ 63) }
    ensures { result ≡ (pos a over pos b) }
{
    Fraction {
        over: a as i64,
        under: b as i64,
    }
}

// R and M6 on a base of length l, where both are above 0.
#[derive(Clone, Copy)]
struct Resultant {
    force: u64,
    moment: u64,
    length: u64,
    ghost some_moment: { 0 < moment },
    ghost within: { Within force length },
}

#[tactic(auto, using(crate::proofs::Bounds::bounds), unfolding(rules::specs::Bearing::of_kind))]
impl Resultant {
    // A block over all of l.
    fn full(self) -> Block
        requires { (2 * self.force * self.length ≤ self.moment) × (self.moment ≤ 4 * self.force * self.length) }
        ensures { result ≡ of_kind Full (pos self.force) (pos self.moment) (pos self.length) }
    {
        let r = self.force;
        let l = self.length;
        let toe = over(4 * r * l - self.moment, l * l);
        let heel = over(self.moment - 2 * r * l, l * l);
        Block {
            kind: Kind::Full,
            toe,
            heel,
            contact: over(l, 1),
        }
    }

    // A triangle from the toe.
    fn from_toe(self) -> Block
        requires { self.moment < 2 * self.force * self.length }
        ensures { result ≡ of_kind FromToe (pos self.force) (pos self.moment) (pos self.length) }
    {
        let r = self.force;
        let m = self.moment;
        Block {
            kind: Kind::FromToe,
            toe: over(4 * r * r, m),
            heel: NOTHING,
            contact: over(m, 2 * r),
        }
    }

    // A triangle from the heel.
    fn from_heel(self) -> Block
        requires { self.moment < 6 * self.force * self.length }
        ensures { result ≡ of_kind FromHeel (pos self.force) (pos self.moment) (pos self.length) }
    {
        let r = self.force;
        let n = 6 * r * self.length - self.moment;
        Block {
            kind: Kind::FromHeel,
            toe: NOTHING,
            heel: over(4 * r * r, n),
            contact: over(n, 2 * r),
        }
    }

    // The block of the case that M6 falls in, compared multiplied out. R has to meet the base between its ends.
    fn block(self) -> Block
        ensures { result ≡ block_of (pos self.force) (pos self.moment) (pos self.length) }
    {
        let m = self.moment;
        let low = 2 * self.force * self.length;
        let high = 4 * self.force * self.length;
        let end = 6 * self.force * self.length;
        if m < low {
            self.from_toe()
        } else if m <= high {
            self.full()
        } else if m < end {
            self.from_heel()
        } else {
            NO_BLOCK
        }
    }
}

// The block that R and M6 make, signed as they are; where M6 is not above 0, there is none.
fn block_of(totals: Totals, length: u64) -> Block
    requires { (pos 0 ≤ℤ totals.R) × (0 < above_zero totals.M6 → Within (above_zero totals.R) length) }
    ensures { result ≡ block_of totals.R totals.M6 (pos length) }
{
    let force = whole::above_zero(totals.R);
    let moment = whole::above_zero(totals.M6);
    if moment == 0 {
        return NO_BLOCK;
    }
    let resultant = Resultant {
        force,
        moment,
        length,
    };
    resultant.block()
}

// A pressure in N/m2, rounded up.
#[tactic(auto, unfolding(rules::specs::Bearing::reported))]
fn report(scale: u64, pressure: Fraction) -> u64
    requires { scale * above_zero pressure.over < 2 ^ 63 }
    ensures { result ≡ reported scale pressure }
{
    whole::rounded_up(
        scale * whole::above_zero(pressure.over),
        whole::above_zero(pressure.under),
    )
}

// A block, given or not, and the pressures reported of it.
fn pressed(scale: u64, block: Block) -> Pressed
    requires { Reportable scale block }
    ensures { result ≡ pressed_by scale (given scale block) }
{
    let toe = report(scale, block.toe);
    let heel = report(scale, block.heel);
    if GREATEST_PEAK < toe.max(heel) {
        return Pressed {
            block: NO_BLOCK,
            toe: 0,
            heel: 0,
        };
    }
    Pressed { block, toe, heel }
}

// What bears some totals: their block, and its pressures at a scale.
pub fn pressed_by(scale: u64, totals: Totals, length: u64) -> Pressed
    requires { Workable scale length totals }
    ensures { result ≡ pressed_by scale (given scale (block_of totals.R totals.M6 (pos length))) }
{
    pressed(scale, block_of(totals, length))
}
