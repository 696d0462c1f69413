// Document 01, "Figures to hold it to": P2, P3 and P9, of the functions themselves and by their contracts alone.
ghost use Rattle.std.specs.Prelude.{◌≡◌, true, false, [], ◌∷◌};

use crate::steel::{self, Bending};

// P2: the lever arm, and what is needed. P3: what two spacings provide. P9: the lever arm at the most that the concrete bears.
fn figures() -> [u64; 5]
    ensures { result ≡ 529 ∷ 202073 ∷ 280497 ∷ 56545 ∷ 394 ∷ [] }
{
    let z = Bending { fcu: 35, d: 585 }.lever_arm(232500000);
    [
        z,
        steel::needed_area(232500000, 500, z),
        steel::provided_area(25, 175),
        steel::provided_area(12, 200),
        Bending { fcu: 35, d: 508 }.lever_arm(352257360),
    ]
}

// P9: that moment passes, and one more fails.
fn limits() -> [bool; 2]
    ensures { result ≡ false ∷ true ∷ [] }
{
    let bending = Bending { fcu: 35, d: 508 };
    [
        bending.needs_compression(352257360),
        bending.needs_compression(352257361),
    ]
}
