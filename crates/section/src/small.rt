// Document 01, "Toe and stem": a section whose numbers are small enough to be worked.
ghost use Rattle.std.specs.Prelude.{◌≡◌, ◌≤◌, true, false, MatchOption};
ghost use Rattle.rules.specs.ToeAndStem.{twice_depth};
ghost use Rattle.rules.specs.Beyond.{is_small, is_workable};
ghost use Rattle.rules.proofs.Sections.{Bounded, deepest};

use rules::Section;

// Where every number of a section is below this, every product that is worked of it fits 64 bits.
const SECTION_LIMIT: u64 = 8192;

// A section each of whose numbers is below the limit.
#[derive(Clone, Copy)]
pub struct Small {
    pub section: Section,
    ghost bounded: { Bounded section },
}

// Is each of its numbers below the limit?
fn is_small(section: Section) -> bool
    ensures { result ≡ is_small section }
{
    let numbers = [
        section.thickness,
        section.cage.cover,
        section.cage.bar,
        section.cage.spacing,
        section.cage.stress,
        section.concrete,
        section.steel,
        section.least,
    ];
    numbers.iter().all(|n| *n < SECTION_LIMIT)
}

// The section, where its numbers are small, and it has steel of some strength and depth enough for a lever arm.
pub fn workable(section: Section) -> Option<Small>
    ensures { MatchOption result (is_workable section ≡ false) (λ it. (is_workable section ≡ true) × (it.section ≡ section)) }
{
    if !is_small(section) {
        return None;
    }
    let small = Small { section };
    if (1 <= section.steel) & (2 <= small.twice_depth()) {
        Some(small)
    } else {
        None
    }
}

impl Small {
    // D: twice the depth.
    pub fn twice_depth(self) -> u64
        ensures { (result ≡ twice_depth self.section) × (result ≤ deepest) }
    {
        let section = self.section;
        (2 * section.thickness)
            .saturating_sub(2 * section.cage.cover)
            .saturating_sub(section.cage.bar)
    }
}
