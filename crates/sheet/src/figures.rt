// A drawing's figures, worked in doubles from whole numbers.
ghost use Rattle.std.specs.Prelude.{◌≡◌, nat_abs};
ghost use Rattle.rules.specs.Bearing.{service_scale, pressed_by};
ghost use Rattle.rules.specs.Drawing.{quotient, in_thousands, drawing_of, shape_of};
ghost use Rattle.rules.proofs.Sizes.{Small};
ghost use Rattle.rules.proofs.Doubles.{Divided, Shaped};

use rules::{Drawing, Kind, Pressed, Shape, Totals};

// N in a kN, and N/m2 in a kN/m2.
const KILO: i64 = 1000;

// The quotient of two whole numbers: neither is changed as it becomes a double, so that only the division rounds.
fn quotient(over: i64, under: i64) -> f64
    requires { Small (nat_abs over) × Small (nat_abs under) }
    ensures { result ≡ quotient over under }
{
    over as f64 / under as f64
}

// Newtons as kN, or N/m2 as kN/m2.
fn in_thousands(over: i64) -> f64
    requires { Small (nat_abs over) }
    ensures { result ≡ in_thousands over }
{
    quotient(over, KILO)
}

// What is drawn of the totals: the forces, and where R acts.
pub fn drawing_of(totals: Totals) -> Drawing
    requires { Divided totals }
    ensures { result ≡ drawing_of totals }
{
    Drawing {
        R: in_thousands(totals.R),
        H: in_thousands(totals.H),
        distance: quotient(totals.M6, 6 * totals.R),
    }
}

// The block's shape, with its reported pressures in kN/m2 and a triangle's length in contact.
pub fn shape_of(pressed: Pressed) -> Shape
    requires { Shaped pressed.block × (pressed ≡ pressed_by service_scale pressed.block) }
    ensures { result ≡ shape_of pressed.block }
{
    let block = pressed.block;
    let contact = block.contact;
    let toe = in_thousands(pressed.toe as i64);
    let heel = in_thousands(pressed.heel as i64);
    match block.kind {
        Kind::Full => Shape::Whole(toe, heel),
        Kind::FromToe => Shape::ToeTriangle(toe, quotient(contact.over, contact.under)),
        Kind::FromHeel => Shape::HeelTriangle(heel, quotient(contact.over, contact.under)),
        Kind::NoBlock => Shape::Nothing,
    }
}
