// Decimals read at a place of some bytes, with the place after each.
ghost use Rattle.std.specs.Prelude.{◌≡◌};
ghost use Rattle.text.specs.Decimals.{digit_count, decimal_length, decimal_at};

use crate::number::{digit, wide_integer};

// How many digits stand in front.
fn digit_count(s: &[u8]) -> usize
    ensures { result ≡ digit_count s.now }
{
    for (i, b) in s.iter().enumerate() {
        if digit(*b) >= 10 {
            return i;
        }
    }
    s.len()
}

// The same with a minus sign before them.
fn decimal_length(s: &[u8]) -> usize
    ensures { result ≡ decimal_length s.now }
{
    if s.len() == 0 {
        return 0;
    }
    if s[0] == b'-' {
        return 1 + digit_count(&s[1..]);
    }
    digit_count(s)
}

// The number that stands at a place, up to the next byte that is no digit.
pub fn decimal_at(s: &[u8], at: usize) -> Option<(i64, usize)>
    ensures { result ≡ decimal_at s.now at }
{
    if at > s.len() {
        return None;
    }
    let rest = &s[at..];
    let n = decimal_length(rest);
    let z = wide_integer(&rest[..n])?;
    Some((z, at + n))
}
