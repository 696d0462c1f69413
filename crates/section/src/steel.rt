// Document 01, "Toe and stem": the steel of a section, by BS 8110. Areas are in hundredths of mm2 on a metre's width.
ghost use Rattle.std.specs.Prelude.{◌≡◌, ◌≤◌};
ghost use Rattle.rules.specs.ToeAndStem.{needs_compression, lever_arm, needed_area, least_area, bar_area, provided_area, steel_under};
ghost use Rattle.rules.specs.Beyond.{section_limit};
ghost use Rattle.rules.proofs.ByRoot.{least_product, unlimited_arm};
ghost use Rattle.rules.proofs.Sections.{deepest, Within, greatest_moment};

use crate::small::Small;
use rules::Steel;

// The width that steel is worked for, in mm.
const METRE: u64 = 1000;

// BS 8110-1, 3.4.4.4, line by line. The width b is a metre; D is 2d and Z is 2z, in whole half millimetres.
//     K = M / (b d^2 fcu), at most K' = 0.156      needs_compression: K > K' is M > 39 fcu D^2
//     z = d (0.5 + root of (0.25 - K / 0.9))       least_product: q is D^2 K / 0.9; lever_by_root: Z is (D + root of (D^2 - 4q)) / 2
//     but not greater than 0.95 d                  lever_arm
//     As = M / (0.87 fy z)                         needed_area: in hundredths of mm2 that is 20000 M / (87 fy Z)

// What a section bears a moment with: its concrete's strength fcu, and D.
#[derive(Clone, Copy)]
pub struct Bending {
    pub fcu: u64,
    pub d: u64,
    ghost within: { Within fcu d },
}

impl Bending {
    // M is more than the section bears without compression steel.
    pub fn needs_compression(self, m: u64) -> bool
        ensures { result ≡ needs_compression m self.fcu self.d }
    {
        39 * self.fcu * (self.d * self.d) < m
    }

    // q is M / (225 fcu), rounded up: M is borne at a Z just where Z (D - Z) is no less.
    fn least_product(self, m: u64) -> u64
        ensures { result ≡ least_product m self.fcu }
    {
        whole::rounded_up(m, 225 * self.fcu)
    }

    // Z before its limit. The root is a whole number, and the last half millimetre is settled downwards.
    fn lever_by_root(self, m: u64) -> u64
        ensures { (result ≡ unlimited_arm m self.fcu self.d) × (result ≤ self.d) }
    {
        let d = self.d;
        // K / 0.9 is more than 0.25: there is no root. In the middle Z (D - Z) is greatest, and no Z bears M.
        if 225 * self.fcu * (d * d / 4) < m {
            return 0;
        }
        let root = whole::square_root(d * d - 4 * self.least_product(m));
        whole::rounded_down(d + root, 2)
    }

    // Z. Where M is borne at 0.95 D, the root would give no less, and isn't worked out.
    pub fn lever_arm(self, m: u64) -> u64
        ensures { (result ≡ lever_arm m self.fcu self.d) × (result ≤ self.d) }
    {
        let limit = 19 * self.d / 20;
        if 225 * self.fcu * limit * (self.d - limit) < m {
            self.lever_by_root(m)
        } else {
            limit
        }
    }
}

// The area that a moment needs at a lever arm.
pub fn needed_area(m: u64, fy: u64, z: u64) -> u64
    requires { (m ≤ greatest_moment) × (fy ≤ section_limit) × (z ≤ deepest) }
    ensures { result ≡ needed_area m fy z }
{
    whole::rounded_up(20000 * m, 87 * fy * z)
}

// A hundredth of a percent of a metre's width is a tenth of a mm: 10 hundredths of mm2 for each mm of thickness. Nothing is rounded.
fn least_area(small: Small) -> u64
    ensures { result ≡ least_area small.section }
{
    small.section.least * small.section.thickness * 10
}

// The area of one bar; 0 for a diameter that no bar has.
#[tactic(auto, unfolding(rules::specs::ToeAndStem::bar_area, rules::specs::ToeAndStem::besides))]
fn bar_area(bar: u64) -> u32
    ensures { result ≡ bar_area bar }
{
    match bar {
        8 => 5026,
        10 => 7853,
        12 => 11309,
        16 => 20106,
        20 => 31415,
        25 => 49087,
        32 => 80424,
        40 => 125663,
        _ => 0,
    }
}

// The area of bars at a spacing.
pub fn provided_area(bar: u64, spacing: u64) -> u64
    ensures { result ≡ provided_area bar spacing }
{
    whole::rounded_down(u64::from(bar_area(bar)) * METRE, spacing)
}

// The area required under a moment, and whether less is provided. Where compression steel would be needed no area is given, and the steel fails.
pub fn steel_of(small: Small, m: u64) -> Steel
    ensures { result ≡ steel_under small.section m }
{
    let section = small.section;
    let bending = Bending {
        fcu: section.concrete,
        d: small.twice_depth(),
    };
    if bending.needs_compression(m) {
        return Steel {
            required: 0,
            fails: true,
        };
    }
    let needed = needed_area(m, section.steel, bending.lever_arm(m));
    let required = whole::greater(needed, least_area(small));
    Steel {
        required,
        fails: provided_area(section.cage.bar, section.cage.spacing) < required,
    }
}
