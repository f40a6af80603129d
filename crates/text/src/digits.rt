// The digits of numbers, counted and stored: what `put` stands on.
ghost use Rattle.std.specs.Prelude.{◌≡◌, ◌+◌, ◌<◌, ◌≤◌, length};
ghost use Rattle.std.specs.Float.Ieee.{to_bits};
ghost use Rattle.std.specs.Float.{binary64};
ghost use Rattle.std.proofs.lemmas.List.Edits.{sets};
ghost use Rattle.text.specs.Digits.{digit_byte};
ghost use Rattle.text.specs.Decimals.{natural};
ghost use Rattle.text.specs.Inside.Putting.{lowest};

// How many digits n has.
pub(crate) fn natural_length(n: u64) -> usize
    ensures { result ≡ length (natural n) }
{
    // One digit needs no logarithm: with it a polygon of short numbers took a quarter longer and more.
    if n < 10 {
        return 1;
    }
    n.ilog10() as usize + 1
}

fn digit_byte(d: u64) -> u8
    requires { d < 16 }
    ensures { result ≡ digit_byte d }
{
    if d < 10 {
        return 48 + d as u8;
    }
    55 + d as u8
}

// The `count` lowest digits of n, stored from a place on, the last of them first.
pub(crate) fn write_digits<const BASE: u64>(out: &mut [u8], at: usize, count: usize, n: u64)
    requires { (0 < BASE) × (BASE ≤ 16) × (at + count ≤ length out.old) }
    ensures { out.new ≡ sets out.old at (lowest BASE count n) }
{
    let mut rest = n;
    for i in (0..count).rev() {
        out[at + i] = digit_byte(rest % BASE);
        rest /= BASE;
    }
}

// The bits of a float; of a NaN, which has none of its own, those of the quiet one.
pub(crate) fn bits_of(x: f64) -> u64
    ensures { result ≡ to_bits binary64 x }
{
    if x == x {
        return f64::to_bits(x);
    }
    0x7ff8_0000_0000_0000
}
