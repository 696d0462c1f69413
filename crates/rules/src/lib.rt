// Document 01 as definitions: `specs/` has a file for each of its headings. Here stand the types that its answers have, the one of its table of
// ranges, and the constants that more than one crate reads.
#![tactic(auto)]

// The diameters that a bar can have, in mm.
pub const BARS: [u32; 8] = [8, 10, 12, 16, 20, 25, 32, 40];

// mm x mm x (10 N/m3) on a metre's run: 100000 to the newton.
pub const PER_VOLUME: u64 = 100000;

// The range of a wall's field.
#[derive(Clone, Copy)]
pub enum Range {
    // from a number to another, both included
    Between(u32, u32),
    // from 0 to the wall's own height
    UpToTop,
    // where a downstand begins: from 0 to the base's length; 0 without one
    AlongBase,
    // how thick a downstand is: from a number to another, both included, and no further than the base reaches; 0 without one
    UnderBase(u32, u32),
    // one of the bars' diameters
    ABar,
}

// Why nothing is worked: a case for each row of the table of refusals, in the order of their tests.
#[derive(Clone, Copy, Debug, PartialEq, Eq)]
pub enum Refusal {
    TooShort,
    WrongEdition,
    CountOutOfRange,
    WrongOffset,
    WrongLength,
    // the wall's number, and that of its first field out of range; of 16 bits, so that the place that they make has no more than 32
    WallOutOfRange(u16, u16),
    // the load's number
    LoadOutOfRange(u32),
    // the load's number
    NinthLoad(u32),
    BufferTooShort,
    // of a file that is to be written
    OutputTooShort,
    // the number that was asked for
    NoSuchWall(u32),
}

// What is answered: all is well, or the refusal.
pub type Answer = Result<(), Refusal>;

// A job file taken apart: how many numbers of each lent buffer are its records.
#[derive(Clone, Copy)]
pub struct Taken {
    pub walls: usize,
    pub loads: usize,
}

// The totals of a wall: R and H in N, and Mrest, Mot and M6 in sixths of a N mm; where they are factored, in tenths of these.
#[derive(Clone, Copy)]
pub struct Totals {
    pub R: i64,
    pub H: i64,
    pub Mrest: i64,
    pub Mot: i64,
    pub M6: i64,
}

// What holds a wall against sliding: passive force and friction in N, whether an unpropped wall slides all the same, and what a prop has to
// take of a propped one.
#[derive(Clone, Copy)]
pub struct Sliding {
    pub passive: u64,
    pub friction: u64,
    pub slides: bool,
    pub propping: u64,
}

// The forces on a wall under its loads: the totals in service and factored, what holds the wall, what acts on its stem, and the factored fill and surcharge
// on its heel in tenths of a N.
#[derive(Clone, Copy)]
pub struct Forces {
    pub service: Totals,
    pub factored: Totals,
    pub sliding: Sliding,
    pub stem: Action,
    pub fill: u64,
}

// A fraction, which is not reduced.
#[derive(Clone, Copy)]
pub struct Fraction {
    pub over: i64,
    pub under: i64,
}

// How a straight-line block bears on the base: on all of it, as a triangle from one end, or not at all.
#[derive(Clone, Copy)]
pub enum Kind {
    Full,
    FromToe,
    FromHeel,
    NoBlock,
}

// A bearing block: its pressure at the toe and at the heel in kN/m2, or in tenths of that where it is factored, and the length of base in
// contact in mm.
#[derive(Clone, Copy)]
pub struct Block {
    pub kind: Kind,
    pub toe: Fraction,
    pub heel: Fraction,
    pub contact: Fraction,
}

// A block as it is given, and the pressures reported of it at the toe and at the heel, in N/m2.
#[derive(Clone, Copy)]
pub struct Pressed {
    pub block: Block,
    pub toe: u64,
    pub heel: u64,
}

// The forces on a wall, and the blocks that bear them.
#[derive(Clone, Copy)]
pub struct Borne {
    pub forces: Forces,
    pub service: Pressed,
    pub factored: Pressed,
}

// The bars of a section in mm, and the concrete's shear stress beside them in 1/1000 N/mm2.
#[derive(Clone, Copy)]
pub struct Cage {
    pub cover: u64,
    pub bar: u64,
    pub spacing: u64,
    pub stress: u64,
}

// A metre of toe, stem or heel as the steel sees it: its thickness in mm, its cage, strengths in N/mm2, and the least steel in hundredths of a percent.
#[derive(Clone, Copy)]
pub struct Section {
    pub thickness: u64,
    pub cage: Cage,
    pub concrete: u64,
    pub steel: u64,
    pub least: u64,
}

// What acts on a section: shear in N and moment in N mm, on a metre's run.
#[derive(Clone, Copy)]
pub struct Action {
    pub shear: u64,
    pub moment: u64,
}

// The steel that a section requires in hundredths of mm2, and whether it fails: less is provided, or compression steel would be needed.
#[derive(Clone, Copy)]
pub struct Steel {
    pub required: u64,
    pub fails: bool,
}

// A toe, a stem or a heel: what acts on it, its steel, and whether it fails in shear.
#[derive(Clone, Copy)]
pub struct Member {
    pub action: Action,
    pub steel: Steel,
    pub sheared: bool,
}

// A wall that is worked: its totals in service, what holds it, the blocks that bear it, its toe, its stem and its heel.
#[derive(Clone, Copy)]
pub struct WorkedWall {
    pub totals: Totals,
    pub sliding: Sliding,
    pub service: Pressed,
    pub factored: Pressed,
    pub toe: Member,
    pub stem: Member,
    pub heel: Member,
}

// The checks, in the order of their bits.
#[derive(Clone, Copy)]
pub enum Check {
    Slides,
    Overturns,
    OverAllowable,
    NoServiceBlock,
    NoFactoredBlock,
    ToeSteel,
    StemSteel,
    Sheared,
    HeelSteel,
}

// How many numbers a wall's line has.
pub const LINE: usize = 19;

// A wall's line, in the order of the sheet.
pub type LineNumbers = [i64; LINE];

// The coefficients that a soil's angle gives: at rest and active, K0 and Ka, in thousandths.
#[derive(Clone, Copy)]
pub struct Coefficients {
    pub rest: u32,
    pub active: u32,
}

// What the drawing office draws of a wall's forces in service: R and H, in kN, and how far from the toe R acts, in mm.
#[derive(Clone, Copy)]
pub struct Drawing {
    pub R: f64,
    pub H: f64,
    pub distance: f64,
}

// The service block as the drawing office takes it: pressures in kN/m2, lengths in mm.
#[derive(Clone, Copy)]
pub enum Shape {
    // the pressure at the toe, and at the heel
    Whole(f64, f64),
    // the peak, and the length in contact
    ToeTriangle(f64, f64),
    // the peak, and the length in contact
    HeelTriangle(f64, f64),
    Nothing,
}

// A wall as it is drawn.
#[derive(Clone, Copy)]
pub struct Drawn {
    pub drawing: Drawing,
    pub shape: Shape,
}
