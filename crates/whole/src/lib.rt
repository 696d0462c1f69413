// Whole numbers: division, rounded up, down and to the nearest, the greater of two, what lies above another or above 0, and the square root.
#![tactic(auto)]

ghost use Rattle.std.specs.Prelude.{◌≡◌, ◌+◌, ◌-◌, ◌*◌, ◌/◌, ◌^◌, ◌≤◌, ◌<◌, max};
ghost use Rattle.whole.specs.Parts.{above_zero};
ghost use Rattle.whole.specs.Rounding.{rounded_up, rounded_down, rounded_nearest};

// a / b, rounded up: one more than the quotient where something is left over. By 0 it is 0.
pub fn rounded_up(a: u64, b: u64) -> u64
    ensures { result ≡ rounded_up a b }
{
    if b == 0 { 0 } else { a.div_ceil(b) }
}

// a / b, rounded down: the quotient alone. By 0 it is 0.
pub fn rounded_down(a: u64, b: u64) -> u64
    ensures { result ≡ rounded_down a b }
{
    if 0 < b { a / b } else { 0 }
}

// a / b, rounded to the nearest, a half upwards. By 0 it is 0.
// The rest is compared with what it lacks of b, and is not doubled, since the double may not fit.
pub fn rounded_nearest(a: u64, b: u64) -> u64
    ensures { result ≡ rounded_nearest a b }
{
    if b == 0 {
        return 0;
    }
    let whole = a / b;
    let rest = a % b;
    if rest >= b - rest { whole + 1 } else { whole }
}

// The greater of two.
pub fn greater(a: u64, b: u64) -> u64
    ensures { result ≡ max a b }
{
    a.max(b)
}

// How far a lies above b; 0 where it doesn't.
pub fn excess(a: u64, b: u64) -> u64
    ensures { result ≡ a - b }
{
    a.saturating_sub(b)
}

// The number itself; 0 where it is negative.
pub fn above_zero(n: i64) -> u64
    ensures { result ≡ above_zero n }
{
    n.max(0) as u64
}

// The greatest number whose square is at most n.
// n is moved up by pairs of bits until one of its two highest is set, and a guess at the root is moved down by half as many. It is the root or one more.
pub fn square_root(n: u64) -> u64
    ensures { (result * result ≤ n) × (n < (result + 1) * (result + 1)) }
{
    if 0 < n {
        let pairs = n.leading_zeros() / 2;
        let guess = near_root(n << (2 * pairs)) >> pairs;
        if n / guess < guess { guess - 1 } else { guess }
    } else {
        0
    }
}

// A number within 1 of the root. A straight line has the first 4 of its 32 bits, and each of three steps doubles their number.
fn near_root(n: u64) -> u64
    requires { 2 ^ 62 ≤ n }
    ensures { ((result - 1) * (result - 1) ≤ n) × (n < (result + 1) * (result + 1)) }
{
    let line = (n >> 33) + (7 << 28);
    let once = nearer_root(n, line);
    let twice = nearer_root(n, once);
    nearer_root(n, twice)
}

// Newton's step: the mean of a guess and of n divided by it.
fn nearer_root(n: u64, guess: u64) -> u64
    requires { (2 ^ 31 ≤ guess) × (guess ≤ 2 ^ 33) }
    ensures { result ≡ (guess + n / guess) / 2 }
{
    (guess + n / guess) / 2
}
