// Document 01, "Forces": what the products that give a force are divided by, on a metre's run of wall.
use rules::PER_VOLUME;

// mm x (10 N/m2): 100 to the newton.
pub const PER_AREA: u64 = 100;

// A coefficient or a tangent is in thousandths.
pub const THOUSANDTHS: u64 = 1000;

// A squared height with a density and a coefficient, yet to be halved.
pub const PER_SQUARE_AT_K: u64 = 2 * THOUSANDTHS * PER_VOLUME;
