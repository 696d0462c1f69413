// Document 01, "What is answered": what an answer says, its number and its place; and refusals in the order of their tests.
#![tactic(auto)]

ghost use Rattle.std.specs.Prelude.{◌≡◌, Err, is_ok};
ghost use Rattle.rules.specs.declared.Refusal.TheVariants.{WallOutOfRange};
ghost use Rattle.rules.specs.Answered.{number, place, refused_if, ◌or_else◌};

use rules::{Answer, Refusal};

// The number that the table of refusals gives, and 0 where there is none.
pub fn number_of(answer: Answer) -> u32
    ensures { result ≡ number answer }
{
    match answer {
        Ok(()) => 0,
        Err(Refusal::TooShort) => 1,
        Err(Refusal::WrongEdition) => 2,
        Err(Refusal::CountOutOfRange) => 3,
        Err(Refusal::WrongOffset) => 4,
        Err(Refusal::WrongLength) => 10,
        Err(Refusal::WallOutOfRange(_, _)) => 5,
        Err(Refusal::LoadOutOfRange(_)) => 6,
        Err(Refusal::NinthLoad(_)) => 7,
        Err(Refusal::BufferTooShort) => 8,
        Err(Refusal::OutputTooShort) => 9,
        Err(Refusal::NoSuchWall(_)) => 18,
    }
}

// The place of a wall's field: the wall's number in hundreds, and behind it the field's.
fn field_place(wall: u16, field: u16) -> u32
    ensures { result ≡ place (Err (WallOutOfRange wall field)) }
{
    u32::from(wall) * 100 + u32::from(field)
}

// Its place: that of a wall's field, the number of a load or of a wall, or 0.
pub fn place_of(answer: Answer) -> u32
    ensures { result ≡ place answer }
{
    match answer {
        Ok(()) => 0,
        Err(Refusal::TooShort) => 0,
        Err(Refusal::WrongEdition) => 0,
        Err(Refusal::CountOutOfRange) => 0,
        Err(Refusal::WrongOffset) => 0,
        Err(Refusal::WrongLength) => 0,
        Err(Refusal::WallOutOfRange(wall, field)) => field_place(wall, field),
        Err(Refusal::LoadOutOfRange(load)) => load,
        Err(Refusal::NinthLoad(load)) => load,
        Err(Refusal::BufferTooShort) => 0,
        Err(Refusal::OutputTooShort) => 0,
        Err(Refusal::NoSuchWall(wall)) => wall,
    }
}

// Is it no refusal?
pub fn is_worked(answer: Answer) -> bool
    ensures { result ≡ is_ok answer }
{
    answer.is_ok()
}

// A refusal, where the test says so.
pub fn refused_if(test: bool, refusal: Answer) -> Answer
    ensures { result ≡ refused_if test refusal }
{
    if test { refusal } else { Ok(()) }
}

// The first of two refusals.
pub fn or_else(first: Answer, second: Answer) -> Answer
    ensures { result ≡ (first or_else second) }
{
    first.and(second)
}
