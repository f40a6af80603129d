// The parity by exact fractions. What a number is in size above its whole part is digits / 2^places, with
// 53 digits and up to 1074 places: no u64 holds such a power, so two of these are compared by a shift of
// one by the difference of their places.
ghost use Rattle.std.specs.Prelude.{◌≡◌, true, ◌&&◌, ◌+◌, ◌*◌, ◌/◌, ◌%◌, ◌^◌, ◌<◌, ◌≤◌, leb};
ghost use Rattle.curve.specs.Points.{near};
ghost use Rattle.curve.specs.ExactPoints.{exact_parity};
ghost use Rattle.curve.specs.Inside.Parts.{Small, PartOf, parts_reach, rest_of};

use crate::{LEADING, SIGN, WHOLE};

// digits / 2^places, or that below 0.
// Stays with `Small` in the contracts: what `rest_of` makes of one is none, since its digits can be as many as 2^places.
#[derive(Clone, Copy)]
pub(crate) struct Part {
    negative: bool,
    digits: u64,
    places: u64,
}

pub(crate) fn exact_parity(i: f64, j: f64) -> u64
    requires { (near i && near j) ≡ true }
    ensures { result ≡ exact_parity i j }
{
    if is_upper(part_of(i), part_of(j)) {
        1
    } else {
        0
    }
}

fn part_of(x: f64) -> Part
    requires { near x ≡ true }
    ensures { PartOf x result }
{
    let bits: u64 = f64::to_bits(x);
    let exponent = bits % SIGN / LEADING;
    if exponent == 0 {
        return Part {
            negative: bits >= SIGN,
            digits: bits % LEADING,
            places: WHOLE - 1,
        };
    }
    let places = WHOLE - exponent;
    Part {
        negative: bits >= SIGN,
        digits: lowest(LEADING + bits % LEADING, places),
        places,
    }
}

// The lowest binary digits of a number.
fn lowest(digits: u64, places: u64) -> u64
    requires { digits < 2 ^ 53 }
    ensures { result ≡ digits % 2 ^ places }
{
    if places > 63 {
        return digits;
    }
    digits % (1u64 << places)
}

// Whether what p and q are above their floors sums to 1 at least. What is below 0 is 1 less its size above
// its floor, but for 0 itself.
// Stays nested tests: each leaf asks something else of the two, and one conjunction for all would say them twice.
fn is_upper(p: Part, q: Part) -> bool
    requires { Small p × Small q }
    ensures { result ≡ parts_reach p q }
{
    if p.negative {
        if p.digits == 0 {
            return false;
        }
        if q.negative {
            if q.digits == 0 {
                return false;
            }
            return is_within(p, q);
        }
        return is_at_least(q, p);
    }
    if q.negative {
        if q.digits == 0 {
            return false;
        }
        return is_at_least(p, q);
    }
    is_full(p, q)
}

// p + q >= 1, by their sizes.
fn is_full(p: Part, q: Part) -> bool
    requires { Small p × Small q }
    ensures { result ≡ leb (2 ^ p.places * 2 ^ q.places) (p.digits * 2 ^ q.places + q.digits * 2 ^ p.places) }
{
    if q.places <= 62 {
        return is_at_least(p, rest_of(q));
    }
    if p.places <= 62 {
        return is_at_least(q, rest_of(p));
    }
    // Each is below a half then.
    false
}

// p + q <= 1, by their sizes.
fn is_within(p: Part, q: Part) -> bool
    requires { Small p × Small q }
    ensures { result ≡ leb (p.digits * 2 ^ q.places + q.digits * 2 ^ p.places) (2 ^ p.places * 2 ^ q.places) }
{
    if p.places <= 62 {
        return is_at_least(rest_of(p), q);
    }
    if q.places <= 62 {
        return is_at_least(rest_of(q), p);
    }
    true
}

// 1 less p, by its size.
fn rest_of(p: Part) -> Part
    requires { (p.digits < 2 ^ p.places) × (p.places ≤ 62) }
    ensures { result ≡ rest_of p }
{
    Part {
        negative: p.negative,
        digits: (1u64 << p.places) - p.digits,
        places: p.places,
    }
}

// p >= q, by their sizes.
fn is_at_least(p: Part, q: Part) -> bool
    ensures { result ≡ leb (q.digits * 2 ^ p.places) (p.digits * 2 ^ q.places) }
{
    if q.places <= p.places {
        return q.digits <= shifted(p.digits, p.places - q.places);
    }
    if q.digits == 0 {
        return true;
    }
    shifted(q.digits - 1, q.places - p.places) < p.digits
}

fn shifted(digits: u64, places: u64) -> u64
    ensures { result ≡ digits / 2 ^ places }
{
    if places < 64 { digits >> places } else { 0 }
}
