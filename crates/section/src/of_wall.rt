// Document 01, "Toe and stem": the sections of a wall.
ghost use Rattle.std.specs.Prelude.{◌≡◌, get_or};
ghost use Rattle.rules.specs.declared.Cage.{Cage};
ghost use Rattle.rules.specs.ToeAndStem.{section_of, toe_section, stem_section, heel_section};

use record::{
    BASE_THICKNESS, CONCRETE_STRENGTH, HEEL_BAR, HEEL_COVER, HEEL_SPACING, HEEL_STRESS,
    LEAST_STEEL, STEEL_STRENGTH, STEM_BAR, STEM_COVER, STEM_SPACING, STEM_STRESS, STEM_THICKNESS,
    TOE_BAR, TOE_COVER, TOE_SPACING, TOE_STRESS, Wall,
};
use rules::{Cage, Section};

// Where a section's own numbers stand in a wall: its thickness, and its cage.
#[derive(Clone, Copy)]
struct Places {
    thickness: usize,
    cover: usize,
    bar: usize,
    spacing: usize,
    stress: usize,
}

const TOE: Places = Places {
    thickness: BASE_THICKNESS,
    cover: TOE_COVER,
    bar: TOE_BAR,
    spacing: TOE_SPACING,
    stress: TOE_STRESS,
};

const STEM: Places = Places {
    thickness: STEM_THICKNESS,
    cover: STEM_COVER,
    bar: STEM_BAR,
    spacing: STEM_SPACING,
    stress: STEM_STRESS,
};

// The heel is as thick as the toe: both are the base.
const HEEL: Places = Places {
    thickness: BASE_THICKNESS,
    cover: HEEL_COVER,
    bar: HEEL_BAR,
    spacing: HEEL_SPACING,
    stress: HEEL_STRESS,
};

// A section has its own thickness and its own cage, and the wall's materials.
fn section_at(wall: Wall, places: Places) -> Section
    ensures { let cage : Cage = record {
      cover = get_or wall places.cover 0;
      bar = get_or wall places.bar 0;
      spacing = get_or wall places.spacing 0;
      stress = get_or wall places.stress 0;
    } in
        result ≡ section_of wall (get_or wall places.thickness 0) cage }
{
    Section {
        thickness: record::field(wall, places.thickness),
        cage: Cage {
            cover: record::field(wall, places.cover),
            bar: record::field(wall, places.bar),
            spacing: record::field(wall, places.spacing),
            stress: record::field(wall, places.stress),
        },
        concrete: record::field(wall, CONCRETE_STRENGTH),
        steel: record::field(wall, STEEL_STRENGTH),
        least: record::field(wall, LEAST_STEEL),
    }
}

// The toe's section, the stem's and the heel's.
pub fn toe_section(wall: Wall) -> Section
    ensures { result ≡ toe_section wall }
{
    section_at(wall, TOE)
}

pub fn stem_section(wall: Wall) -> Section
    ensures { result ≡ stem_section wall }
{
    section_at(wall, STEM)
}

pub fn heel_section(wall: Wall) -> Section
    ensures { result ≡ heel_section wall }
{
    section_at(wall, HEEL)
}
