// Document 01, "The sheet line": a wall's failures, in two bytes. A check's bit is set by a shift and an or.
#![tactic(auto)]

ghost use Rattle.std.specs.Prelude.{◌≡◌, ◌||◌, cond, ◌+◌, ◌*◌, ◌<◌, ◌^◌, max, ltb};
ghost use Rattle.std.specs.Int.Signed.{lt_z};
ghost use Rattle.rules.specs.JobFile.{allowable_bearing};
ghost use Rattle.rules.specs.Bearing.{is_given};
ghost use Rattle.rules.specs.SheetLine.{bit, is_set, failures_by};

use record::{ALLOWABLE_BEARING, Wall};
use rules::{Block, Check, Kind, Member, Totals, WorkedWall};

// N/m2 in a kN/m2.
const PER_KILO: u64 = 1000;

// How far to the left a check's bit stands: the checks are in the order of their bits.
fn shift_of(check: Check) -> u32
    ensures { (2 ^ result ≡ bit check) × (result < 16) }
{
    check as u32
}

// A check's bit where the check fails, and else nothing.
fn bit_if(fails: bool, check: Check) -> u16
    ensures { result ≡ cond fails (bit check) 0 }
{
    if fails { 1 << shift_of(check) } else { 0 }
}

// Is there a block?
pub fn is_given(block: Block) -> bool
    ensures { result ≡ is_given block }
{
    !matches!(block.kind, Kind::NoBlock)
}

// Mrest is less than Mot.
fn overturns(totals: Totals) -> bool
    ensures { result ≡ lt_z totals.Mrest totals.Mot }
{
    totals.Mrest < totals.Mot
}

// A pressure is over the allowable.
fn is_over_allowable(wall: Wall, toe: u64, heel: u64) -> bool
    ensures { result ≡ ltb (1000 * allowable_bearing wall) (max toe heel) }
{
    PER_KILO * record::field(wall, ALLOWABLE_BEARING) < toe.max(heel)
}

// The toe fails in shear, or the stem does, or the heel.
fn is_sheared(toe: Member, stem: Member, heel: Member) -> bool
    ensures { result ≡ toe.sheared || stem.sheared || heel.sheared }
{
    toe.sheared | stem.sheared | heel.sheared
}

// The bits of the checks that a worked wall fails.
pub fn failures_of(wall: Wall, worked: WorkedWall) -> u16
    ensures { result ≡ failures_by wall worked }
{
    let pressed = is_over_allowable(wall, worked.service.toe, worked.service.heel);
    let sheared = is_sheared(worked.toe, worked.stem, worked.heel);
    bit_if(worked.sliding.slides, Check::Slides)
        | bit_if(overturns(worked.totals), Check::Overturns)
        | bit_if(pressed, Check::OverAllowable)
        | bit_if(!is_given(worked.service.block), Check::NoServiceBlock)
        | bit_if(!is_given(worked.factored.block), Check::NoFactoredBlock)
        | bit_if(worked.toe.steel.fails, Check::ToeSteel)
        | bit_if(worked.stem.steel.fails, Check::StemSteel)
        | bit_if(sheared, Check::Sheared)
        | bit_if(worked.heel.steel.fails, Check::HeelSteel)
}

// Do the two bytes of failures, as a line has them, have a check's bit?
pub fn has_failed(failures: u16, check: Check) -> bool
    ensures { result ≡ is_set failures check }
{
    (failures >> shift_of(check)) & 1 == 1
}
