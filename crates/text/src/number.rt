// Numbers read, each from a word of bytes.
ghost use Rattle.std.specs.Prelude.{◌≡◌, ◌<◌, ◌≤◌, ◌^◌, Some};
ghost use Rattle.std.specs.Float.Ieee.{of_bits};
ghost use Rattle.std.specs.Float.{binary64};
ghost use Rattle.text.specs.Digits.{digit_of};
ghost use Rattle.text.specs.Decimals.{up_to, negated, signed, u8 as u8Of, u64 as u64Of, i32 as i32Of, i64 as i64Of};
ghost use Rattle.text.specs.Patterns.{f64 as f64Of};
ghost use Rattle.text.specs.Inside.Reading.{digits_up_to};

// What a byte stands for, 0 to 9 and A to F; 16 where it is no digit. The arms become one look into a
// table: tests would be guessed wrong at every other digit of a pattern.
pub(crate) fn digit(b: u8) -> u64
    ensures { result ≡ digit_of b }
{
    match b {
        b'0' => 0,
        b'1' => 1,
        b'2' => 2,
        b'3' => 3,
        b'4' => 4,
        b'5' => 5,
        b'6' => 6,
        b'7' => 7,
        b'8' => 8,
        b'9' => 9,
        b'A' => 10,
        b'B' => 11,
        b'C' => 12,
        b'D' => 13,
        b'E' => 14,
        b'F' => 15,
        _ => 16,
    }
}

// The number that digits of a base write, where it is at most `most`. No digits write 0.
fn digits(word: &[u8], base: u64, most: u64) -> Option<u64>
    requires { 0 < base }
    ensures { result ≡ digits_up_to base most 0 word.now }
{
    // A value above this, with one more digit, is above the most.
    let before = most / base;
    let mut value: u64 = 0;
    for b in word {
        let d = digit(*b);
        // Stays two tests: that it is no digit is one thing, that it is one too many another.
        if d >= base {
            return None;
        }
        if value > before {
            return None;
        }
        let shifted = value * base;
        if d > most - shifted {
            return None;
        }
        value = shifted + d;
    }
    Some(value)
}

// A decimal of at most `most`, without leading zeros.
fn up_to(word: &[u8], most: u64) -> Option<u64>
    ensures { result ≡ up_to most word.now }
{
    if word.len() == 0 {
        return None;
    }
    if word.len() == 1 {
        return digits(word, 10, most);
    }
    if word[0] == b'0' {
        return None;
    }
    digits(word, 10, most)
}

pub fn byte(word: &[u8]) -> Option<u8>
    ensures { result ≡ u8Of word.now }
{
    let n = up_to(word, 255)?;
    Some(n as u8)
}

pub fn natural(word: &[u8]) -> Option<u64>
    ensures { result ≡ u64Of word.now }
{
    up_to(word, 18446744073709551615)
}

// 0 less a number that is not 0.
fn negated(n: u64) -> Option<i64>
    requires { n ≤ 2 ^ 63 }
    ensures { result ≡ negated (Some n) }
{
    if n == 0 {
        return None;
    }
    let less = (n - 1) as i64;
    Some(-1 - less)
}

// A minus sign has a number after it that is not 0.
fn signed(word: &[u8], bound: u64) -> Option<i64>
    requires { (0 < bound) × (bound ≤ 2 ^ 63) }
    ensures { result ≡ signed bound word.now }
{
    if word.len() == 0 {
        return None;
    }
    if word[0] == b'-' {
        let n = up_to(&word[1..], bound)?;
        return negated(n);
    }
    let n = up_to(word, bound - 1)?;
    Some(n as i64)
}

pub fn integer(word: &[u8]) -> Option<i32>
    ensures { result ≡ i32Of word.now }
{
    let z = signed(word, 2147483648)?;
    Some(z as i32)
}

pub fn wide_integer(word: &[u8]) -> Option<i64>
    ensures { result ≡ i64Of word.now }
{
    signed(word, 9223372036854775808)
}

// The float of a pattern. Every pattern of a NaN gives the one NaN.
fn of_pattern(bits: u64) -> f64
    ensures { result ≡ of_bits binary64 bits }
{
    if bits % 0x8000_0000_0000_0000 > 0x7ff0_0000_0000_0000 {
        0.0 / 0.0
    } else {
        f64::from_bits(bits)
    }
}

// Sixteen hex digits of a pattern.
pub fn float(word: &[u8]) -> Option<f64>
    ensures { result ≡ f64Of word.now }
{
    if word.len() != 16 {
        return None;
    }
    let bits = digits(word, 16, 18446744073709551615)?;
    Some(of_pattern(bits))
}
