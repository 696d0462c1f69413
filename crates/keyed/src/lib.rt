// Words as a person keys them in behind a command: a number, or an angle in degrees.
#![tactic(auto)]

ghost use Rattle.std.specs.Prelude.{◌≡◌, ◌≤◌};
ghost use Rattle.keyed.specs.Keyed.{beyond, digits_behind, asked_for, angle_by, angle_of};

// The least number that 32 bits don't hold; it stands for every greater one too.
const BEYOND: u64 = 1 << 32;

// How many digits a number may have.
const MOST_DIGITS: usize = 10;

// What a number becomes with the digits of a word behind it; the word has one at least, and nothing else.
fn digits_behind(number: u64, word: &[u8]) -> Option<u64>
    requires { number ≤ beyond }
    ensures { result ≡ digits_behind number word.now }
{
    if word.is_empty() {
        return None;
    }
    let mut value = number;
    for &byte in word {
        if !byte.is_ascii_digit() {
            return None;
        }
        value = (10 * value + u64::from(byte - b'0')).min(BEYOND);
    }
    Some(value)
}

// The number that a word asks for, one to ten digits that 32 bits hold.
pub fn number_of(word: &[u8]) -> Option<u32>
    ensures { result ≡ asked_for word.now }
{
    if MOST_DIGITS < word.len() {
        return None;
    }
    u32::try_from(digits_behind(0, word)?).ok()
}

// The angle of degrees and a tenth behind them, both in digits, in tenths of a degree; the greatest that 16 bits hold stands for every greater one too.
fn angle_by(degrees: &[u8], tenth: &[u8]) -> Option<u16>
    ensures { result ≡ angle_by degrees.now tenth.now }
{
    let tenths = digits_behind(digits_behind(0, degrees)?, tenth)?;
    Some(u16::try_from(tenths).unwrap_or(u16::MAX))
}

// The angle that a word gives, in tenths of a degree: degrees, and behind a point one tenth, if at all.
pub fn angle_of(word: &[u8]) -> Option<u16>
    ensures { result ≡ angle_of word.now }
{
    let [degrees @ .., point, tenth] = word else {
        return angle_by(word, b"0");
    };
    if degrees.is_empty() || *point != b'.' {
        return angle_by(word, b"0");
    }
    angle_by(degrees, &[*tenth])
}
