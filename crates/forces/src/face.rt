// Document 01, "Forces": a face that earth and water push on.
ghost use Rattle.std.specs.Prelude.{◌≤◌};
ghost use Rattle.rules.proofs.Accepted.{most, tallest};

// The coefficient K that the earth pushes at, the face's height h, how high the water stands above its foot, hw, and how deep the foot lies below the
// base's underside, dd. All are within what an accepted wall has.
#[derive(Clone, Copy)]
pub struct Face {
    pub coefficient: u64,
    pub height: u64,
    pub water: u64,
    pub foot: u64,
    ghost pressed: { coefficient ≤ most 16 },
    ghost low: { height ≤ tallest },
    ghost within: { water ≤ height },
    ghost shallow: { foot ≤ most 36 },
}
