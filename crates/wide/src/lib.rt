// Natural numbers of 192 bits, by value: for products that 64 bits don't hold, and for their quotients, which they hold again.
// Every public function takes whatever it is given. For a caller, proofs/Exact.antt has a law for each.
#![tactic(auto)]

ghost use Rattle.std.specs.Prelude.{◌≡◌, ◌+◌, ◌-◌, ◌*◌, ◌%◌, ◌^◌, ◌<◌, ◌≤◌, ◌==◌, min, ◌↔◌, IsTrue, MatchOption};
ghost use Rattle.std.proofs.Common.{refl};
ghost use Rattle.std.specs.Cmp.{on_total, on_po, on_equiv, partial_equiv_from_equiv, nat_cmp_total, nat_eq_equiv, unsigned_po, unsigned_ties};
ghost use Rattle.std.specs.Ordering.{nat_cmp, on, as_partial_cmp};
ghost use Rattle.whole.specs.Rounding.{rounded_up, rounded_down};
ghost use Rattle.wide.specs.Value.{base, size, value, Is};

use std::cmp::Ordering;

// Three digits in base 2^64.
#[derive(Clone, Copy)]
pub struct Wide {
    pub low: u64,
    pub middle: u64,
    pub high: u64,
}

// A number of 64 bits.
impl From<u64> for Wide {
    ghost from_gives = { λ n w. Is w n };

    fn from(n: u64) -> Wide {
        Wide {
            low: n,
            middle: 0,
            high: 0,
        }
    }
}

// Wide numbers compare as the numbers that their digits make: the first digit that differs decides.
impl Ord for Wide {
    ghost cmp = { on value nat_cmp };

    ghost total = { on_total value nat_cmp_total };

    ghost matches_partial_cmp = { λ _ _. refl };

    ghost matches_eq = { λ a b. unsigned_ties (value a) (value b) };

    fn cmp(&self, other: &Wide) -> Ordering {
        self.digits().cmp(&other.digits())
    }
}

impl PartialOrd for Wide {
    ghost partial_cmp = { as_partial_cmp (on value nat_cmp) };

    ghost laws = { on_po value unsigned_po };

    fn partial_cmp(&self, other: &Wide) -> Option<Ordering> {
        Some(self.cmp(other))
    }
}

impl PartialEq for Wide {
    ghost eq = { on value ◌==◌ };

    ghost laws = { partial_equiv_from_equiv (on_equiv value nat_eq_equiv) };

    fn eq(&self, other: &Wide) -> bool {
        self.cmp(other).is_eq()
    }
}

impl Eq for Wide {
    ghost laws = { on_equiv value nat_eq_equiv };
}

impl Wide {
    // Its digits, the highest first.
    fn digits(self) -> (u64, u64, u64)
        ensures { result ≡ (self.high, self.middle, self.low) }
    {
        (self.high, self.middle, self.low)
    }

    // a * b, which two digits hold.
    fn product_of(a: u64, b: u64) -> Wide
        ensures { Is result (a * b) }
    {
        let (low, middle) = a.carrying_mul(b, 0);
        Wide {
            low,
            middle,
            high: 0,
        }
    }

    // The number times f: its lowest 192 bits, and the digit above them.
    fn product(self, f: u64) -> (Wide, u64)
        ensures { value result.0 + result.1 * size ≡ value self * f }
    {
        let (low, carry) = self.low.carrying_mul(f, 0);
        let (middle, carry) = self.middle.carrying_mul(f, carry);
        let (high, over) = self.high.carrying_mul(f, carry);
        (Wide { low, middle, high }, over)
    }

    // The number times f, of which the lowest 192 bits are kept. That is all of it where the two have no more bits than that together.
    pub fn times(self, f: u64) -> Wide
        ensures { Is result (value self * f % size) }
    {
        self.product(f).0
    }

    // How far it lies above another; nothing where it is less.
    fn checked_minus(self, other: Wide) -> Option<Wide>
        ensures { MatchOption result (value self < value other) (λ rest. value self ≡ value rest + value other) }
    {
        let (low, lent) = self.low.borrowing_sub(other.low, false);
        let (middle, lent) = self.middle.borrowing_sub(other.middle, lent);
        let (high, lent) = self.high.borrowing_sub(other.high, lent);
        if lent {
            None
        } else {
            Some(Wide { low, middle, high })
        }
    }

    // How far it lies above another; 0 where it doesn't.
    pub fn minus(self, other: Wide) -> Wide
        ensures { Is result (value self - value other) }
    {
        self.checked_minus(other).unwrap_or(Wide::from(0))
    }

    // Is it 0?
    fn is_zero(self) -> bool
        ensures { IsTrue result ↔ (value self ≡ 0) }
    {
        self == Wide::from(0)
    }

    // Does d go into it 2^64 times or more? Its upper two digits tell.
    fn is_long(self, d: Wide) -> bool
        ensures { IsTrue result ↔ (base * value d ≤ value self) }
    {
        let upper = Wide {
            low: self.middle,
            middle: self.high,
            high: 0,
        };
        d <= upper
    }

    // Its first 64 bits, and how many it has.
    fn top(self) -> Leading {
        if self.high > 0 {
            top_of(self.high, self.middle, 128)
        } else if self.middle > 0 {
            top_of(self.middle, self.low, 64)
        } else {
            top_of(self.low, 0, 0)
        }
    }

    // d is taken off as often as is asked, where it goes so often; else once.
    fn taken_off(self, d: Wide, often: u64) -> Division
        requires { value d ≤ value self }
        ensures { (value self ≡ result.quotient * value d + value result.rest) × (0 < result.quotient) }
    {
        if 0 < often {
            let (taken, over) = d.product(often);
            if over == 0 {
                if let Some(rest) = self.checked_minus(taken) {
                    return Division {
                        quotient: often,
                        rest,
                    };
                }
            }
        }
        Division {
            quotient: 1,
            rest: self.minus(d),
        }
    }

    // Division by trial: d is taken off as often as is estimated, until less than d is left. Each turn finds some 30 bits of the quotient.
    fn divided(self, d: Wide) -> Division
        requires { value self < base * value d }
        ensures { (value self ≡ result.quotient * value d + value result.rest) × (value result.rest < value d) }
    {
        let by = d.top();
        let mut quotient: u64 = 0;
        let mut rest = self;
        while d <= rest {
            let next = rest.taken_off(d, estimate(rest.top(), by));
            quotient += next.quotient;
            rest = next.rest;
        }
        Division { quotient, rest }
    }

    // The number by d, rounded down; the greatest number of 64 bits where it is more than that. By 0 it is 0.
    pub fn quotient_down(self, d: Wide) -> u64
        ensures { result ≡ min (rounded_down (value self) (value d)) (2 ^ 64 - 1) }
    {
        if d.is_zero() {
            0
        } else if self.is_long(d) {
            u64::MAX
        } else {
            self.divided(d).quotient
        }
    }

    // The number by d, rounded up; the greatest number of 64 bits where it is more than that. By 0 it is 0.
    pub fn quotient_up(self, d: Wide) -> u64
        ensures { result ≡ min (rounded_up (value self) (value d)) (2 ^ 64 - 1) }
    {
        if d.is_zero() {
            return 0;
        }
        if self.is_long(d) {
            return u64::MAX;
        }
        let by = self.divided(d);
        if by.rest.is_zero() {
            by.quotient
        } else {
            by.quotient.saturating_add(1)
        }
    }
}

// The first 64 bits of a number, from its first 1 on, and how many bits the number has.
#[derive(Clone, Copy)]
struct Leading {
    digit: u64,
    bits: u32,
}

// Of a number by its first two digits, and how many bits stand behind the first.
fn top_of(first: u64, second: u64, behind: u32) -> Leading
    requires { behind ≤ 128 }
{
    let zeros = first.leading_zeros();
    if zeros < 64 {
        Leading {
            digit: (first << zeros) | ((second >> 1) >> (63 - zeros)),
            bits: behind + (64 - zeros),
        }
    } else {
        Leading {
            digit: 0,
            bits: behind,
        }
    }
}

// Nearly how often d goes into n, by the first 64 bits of n and the first 32 of d: never too much, and too little by less than one part in 2^30 and one.
// Nothing of that is proved, since every estimate is tried out before it is used. It only makes the division quick.
fn estimate(n: Leading, d: Leading) -> u64 {
    if n.bits < d.bits {
        return 0;
    }
    let digit = n.digit / ((d.digit >> 32) + 1);
    let up = n.bits - d.bits;
    if up < 32 {
        digit >> (32 - up)
    } else if up < 96 {
        digit << (up - 32)
    } else {
        0
    }
}

// How often a number goes into another, and what is left.
#[derive(Clone, Copy)]
struct Division {
    quotient: u64,
    rest: Wide,
}

// a * b * c / (m * n), rounded down; the greatest number of 64 bits where it is more than that. By 0 it is 0. Any three numbers of 64 bits have a product of
// 192, so nothing is lost on the way.
pub fn share_down(a: u64, b: u64, c: u64, m: u64, n: u64) -> u64
    ensures { result ≡ min (rounded_down (a * b * c) (m * n)) (2 ^ 64 - 1) }
{
    Wide::product_of(a, b)
        .times(c)
        .quotient_down(Wide::product_of(m, n))
}
