// The sines of angles from 0.0 to 90.0 degrees by tenths, and the coefficients of earth pressure that the angle of a soil gives. An angle is a number of
// tenths of a degree.
#![tactic(auto)]

mod table;

ghost use Rattle.std.specs.Prelude.{◌≡◌, ◌≤◌};
ghost use Rattle.rules.specs.Coefficients.{million, at_rest, active, is_soil, coefficients_of};

use rules::Coefficients;
pub use table::sine;

// What a sine of 1 is, in millionths.
const MILLION: u64 = 1000000;

// Thousandths in 1, which a coefficient is given in.
const THOUSAND: u64 = 1000;

// The least angle that a soil has, and the greatest.
const LEAST_SOIL: u16 = 1;

const GREATEST_SOIL: u16 = 450;

// K0 = 1 - sine, in thousandths rounded up.
fn rest_by(sine: u64) -> u32
    requires { sine ≤ million }
    ensures { result ≡ at_rest sine }
{
    whole::rounded_up(THOUSAND * (MILLION - sine), MILLION) as u32
}

// Ka = (1 - sine) / (1 + sine), in thousandths rounded up.
fn active_by(sine: u64) -> u32
    requires { sine ≤ million }
    ensures { result ≡ active sine }
{
    whole::rounded_up(THOUSAND * (MILLION - sine), MILLION + sine) as u32
}

// Has a soil such an angle?
fn is_soil(angle: u16) -> bool
    ensures { result ≡ is_soil angle }
{
    (LEAST_SOIL..=GREATEST_SOIL).contains(&angle)
}

// The coefficients that an angle gives; one that no soil has gives none.
pub fn coefficients(angle: u16) -> Option<Coefficients>
    ensures { result ≡ coefficients_of angle }
{
    if !is_soil(angle) {
        return None;
    }
    let sine = u64::from(sine(angle)?);
    Some(Coefficients {
        rest: rest_by(sine),
        active: active_by(sine),
    })
}
