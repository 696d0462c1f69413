// Document 02, #105: a triangle from one end of the base, and what bears on the toe by it, in N and N mm, rounded up once. Its products pass 64 bits, and so it is
// worked in wide numbers.
ghost use Rattle.std.specs.Prelude.{◌≡◌, ◌+◌, ◌-◌, ◌*◌, ◌≤◌, ◌<◌};
ghost use Rattle.whole.specs.Parts.{above_zero};
ghost use Rattle.whole.specs.Rounding.{rounded_up};
ghost use Rattle.rules.specs.Bearing.{greatest_peak};
ghost use Rattle.rules.proofs.Accepted.{longest};
ghost use Rattle.rules.proofs.Triangles.{past};
ghost use Rattle.rules.proofs.Sizes.{heaviest_factored};
ghost use Rattle.wall.specs.Working.{Contact};

use rules::Fraction;
use wide::Wide;

// mm x (N/m2): 1000 to the newton.
pub const PER_PRESSURE: u64 = 1000;

// The length of base in contact under a triangle: a fraction of whole numbers.
#[derive(Clone, Copy)]
pub struct ContactLength {
    pub over: u64,
    pub under: u64,
    ghost small: { Contact over under },
}

// The contact of a block that is a triangle.
pub fn contact_length(fraction: Fraction) -> ContactLength
    requires { Contact (above_zero fraction.over) (above_zero fraction.under) }
    ensures { (result.over ≡ above_zero fraction.over) × (result.under ≡ above_zero fraction.under) }
{
    ContactLength {
        over: whole::above_zero(fraction.over),
        under: whole::above_zero(fraction.under),
    }
}

// A triangle on a base of length l, by its contact, which is exact, and its peak as it is reported.
#[derive(Clone, Copy)]
pub struct Triangle {
    pub l: u64,
    pub peak: u64,
    pub contact: ContactLength,
    ghost long: { l ≤ longest },
    ghost peak_most: { peak ≤ greatest_peak },
    ghost on_base: { contact.over ≤ l * contact.under },
}

// The triangle of a block, by the peak reported of it.
pub fn on_base(l: u64, peak: u64, contact: Fraction) -> Triangle
    requires { (l ≤ longest) × (peak ≤ greatest_peak) × Contact (above_zero contact.over) (above_zero contact.under) × (above_zero contact.over ≤ l * above_zero contact.under) }
    ensures { (result.l ≡ l) × (result.peak ≡ peak) × (result.contact.over ≡ above_zero contact.over) × (result.contact.under ≡ above_zero contact.under) }
{
    Triangle {
        l,
        peak,
        contact: contact_length(contact),
    }
}

impl Triangle {
    ghost use Rattle.rules.specs.ToeAndStem.{plain, ended_shear, ended_moment, begun_shear, begun_moment, in_newtons};
    ghost use Rattle.wall.specs.Working.{fraction};
    ghost use Rattle.wall.specs.Triangle.{in_contact, begins_at};

    // What the peak of one from the toe has fallen to at a point so far from the toe, given twice; 0 where the contact has ended. In N/m2 rounded up.
    pub fn pressure_at(self, twice: u64) -> u64
        requires { twice ≤ 2 * longest }
        ensures { (result ≡ rounded_up (self.peak * (2 * self.contact.over - self.contact.under * twice)) (2 * self.contact.over)) × (result ≤ self.peak) }
    {
        let reach = 2 * self.contact.over;
        whole::rounded_up(
            self.peak * reach.saturating_sub(self.contact.under * twice),
            reach,
        )
    }

    // From the toe, ended before the stem's middle: all of it, or its part over lt where it reaches past that.
    pub fn ended_shear(self, lt: u64) -> u64
        requires { lt ≤ longest }
        ensures { result ≡ in_newtons (ended_shear (plain self.peak) (in_contact self) (plain lt)) }
    {
        let over = self.contact.over;
        let under = self.contact.under;
        let face = lt * under;
        if face < over {
            let above = Wide::from(self.peak * lt).times(2 * over - face);
            return above.quotient_up(Wide::from(2 * PER_PRESSURE * over));
        }
        whole::rounded_up(self.peak * over, 2 * PER_PRESSURE * under)
    }

    // Its moment about the stem's middle, which stands half of `arm` from the toe.
    pub fn ended_moment(self, arm: u64) -> u64
        requires { (arm ≤ longest) × (2 * self.contact.over ≤ arm * self.contact.under) }
        ensures { result ≡ in_newtons (ended_moment (plain self.peak) (in_contact self) (fraction arm 2)) }
    {
        let over = self.contact.over;
        let under = self.contact.under;
        let above = Wide::from(self.peak * over).times(3 * arm * under - 2 * over);
        let below = Wide::from(12 * PER_PRESSURE * under).times(under);
        above.quotient_up(below)
    }

    // How far one from the heel reaches past a section at i/j, in parts of which j x `under` make a mm.
    fn past(self, i: u64, j: u64) -> u64
        requires { (0 < j) × (j ≤ 2) × (i ≤ longest) × (i ≤ j * self.l) }
        ensures { (result ≡ past self.contact.over self.contact.under self.l i j) × (result ≤ j * self.contact.over) × (result ≤ longest * self.contact.under) × (result ≤ longest * (2 * heaviest_factored)) }
    {
        (j * self.contact.over).saturating_sub(self.contact.under * (j * self.l - i))
    }

    // From the heel: its part before lt.
    pub fn begun_shear(self, lt: u64) -> u64
        requires { lt ≤ self.l }
        ensures { result ≡ in_newtons (begun_shear (plain self.peak) (in_contact self) (begins_at self) (plain lt)) }
    {
        let past = self.past(lt, 1);
        if past == 0 {
            return 0;
        }
        let above = Wide::from(self.peak * past).times(past);
        let below = Wide::from(2 * PER_PRESSURE * self.contact.under).times(self.contact.over);
        above.quotient_up(below)
    }

    // Its moment about the stem's middle, of its part before that.
    pub fn begun_moment(self, arm: u64) -> u64
        requires { (arm ≤ longest) × (arm ≤ 2 * self.l) }
        ensures { result ≡ in_newtons (begun_moment (plain self.peak) (in_contact self) (begins_at self) (fraction arm 2)) }
    {
        let past = self.past(arm, 2);
        if past == 0 {
            return 0;
        }
        let under = self.contact.under;
        let above = Wide::from(self.peak * past).times(past).times(past);
        let below = Wide::from(48 * PER_PRESSURE * under)
            .times(under)
            .times(self.contact.over);
        above.quotient_up(below)
    }
}
