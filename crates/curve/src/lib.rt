// Answers for points: the triple of the cell that a point of two f64 falls in, brought into bounds, and
// whether it had to be. Which half of a unit square that is, the f64's arithmetic tells or exact fractions.
// What a triple's bounds are is `triple`'s; which position names it is `lsystem`'s. The mapping between
// positions and cells needs no point, and is all there.
#![tactic(auto)]

ghost use Rattle.std.specs.Prelude.{◌≡◌, true, ◌&&◌, cond, ◌+◌, ◌-◌, ◌<◌, ◌≤◌, ◌^◌, pos, nat_abs};
ghost use Rattle.std.specs.Float.{binary64};
ghost use Rattle.std.specs.Float.Ieee.{add, sub, le, of_int};
ghost use Rattle.curve.specs.Points.{near, floor_at, floor, one, clamped, cornered, settled, is_moved, point_by, point_cell, mark_of, point_of};
ghost use Rattle.curve.specs.ExactPoints.{exact_point_of};
ghost use Rattle.curve.specs.Inside.Parts.{parity_in};
ghost use Rattle.triple.specs.Refusals.{said};

use crate::exact::exact_parity;
use triple::Triple;
use triple::domain::row_count;
use triple::refusal::Refusal;

mod exact;

// A point's cell. A point is moved where its own floors and parity are those of no cell in bounds.
#[derive(Clone, Copy)]
pub struct PointCell {
    pub triple: Triple,
    pub moved: bool,
}

impl PointCell {
    // The mark as a number: 1 where the point was moved, else 0.
    pub fn mark(self) -> u8
        ensures { result ≡ mark_of self }
    {
        // Stays a test, as in the two below: `u8::from` of a truth says no more.
        if self.moved { 1 } else { 0 }
    }
}

// The cell that holds the point (i, j). A unit square is two cells, parted where the
// fractions of i and j sum to 1; that line is the upper cell's. A point out of bounds, as float
// noise at an edge or a hand that drags it can have it, is brought to a cell that is there, and marked.
// The fractions and their sum are rounded, each once: just left of an edge the fraction can become 1.
pub fn round_to_triple(i: f64, j: f64, resolution: u8) -> Result<PointCell, Refusal>
    ensures { said result ≡ point_of resolution i j }
{
    round(i, j, resolution, false)
}

// The same by exact fractions: a point that is not moved lies in the cell's triangle.
pub fn round_exactly(i: f64, j: f64, resolution: u8) -> Result<PointCell, Refusal>
    ensures { said result ≡ exact_point_of resolution i j }
{
    round(i, j, resolution, true)
}

fn round(i: f64, j: f64, resolution: u8, exact: bool) -> Result<PointCell, Refusal>
    ensures { said result ≡ point_by (parity_in exact) resolution i j }
{
    if resolution > Triple::GREATEST_RESOLUTION {
        return Err(Refusal::Resolution);
    }
    if !are_near(i, j) {
        return Err(Refusal::Point);
    }
    Ok(rounded(i, j, last_row(resolution), exact))
}

fn are_near(i: f64, j: f64) -> bool
    ensures { result ≡ (near i && near j) }
{
    is_near(i) && is_near(j)
}

// Whether x is a number, and not beyond 2^31 in size. Each comparison is false of NaN.
fn is_near(x: f64) -> bool
    ensures { result ≡ near x }
{
    x >= -2147483648.0 && x <= 2147483648.0
}

fn rounded(i: f64, j: f64, last: u64, exact: bool) -> PointCell
    requires { ((near i && near j) ≡ true) × (last ≤ 2 ^ 30) }
    ensures { result ≡ point_cell last (floor i) (floor j) (parity_in exact i j) }
{
    let floor_i = floor_of(i);
    let floor_j = floor_of(j);
    let m = clamped(floor_i);
    let n = clamped(floor_j);
    // By the floors as they are: what is below a clamped one has no fraction above it.
    let parity = parity_by(exact, i, j, floor_i, floor_j);
    PointCell {
        triple: settled(m as u64, n as u64, parity, last),
        moved: is_moved(floor_i, floor_j, parity, last),
    }
}

// An f64 is, from the highest bit down: its sign; its exponent, in 11 bits; its digits, in 52. The
// digits follow a leading 1 that is not written, so a number of exponent e is that 1 and its digits,
// taken as one whole number, over 2^(WHOLE - e). Exponent 0, without the leading 1, is for zero and
// what is nearest to it; the greatest exponent is for the infinities and NaN.
pub(crate) const SIGN: u64 = 0x8000_0000_0000_0000;

pub(crate) const LEADING: u64 = 0x10_0000_0000_0000;

const ONE: u64 = 1023;

pub(crate) const WHOLE: u64 = 1075;

fn floor_of(x: f64) -> i64
    requires { near x ≡ true }
    ensures { result ≡ floor x }
{
    let bits: u64 = f64::to_bits(x);
    let exponent = bits % SIGN / LEADING;
    if exponent < ONE {
        // The sign alone is -0.0, whose floor is 0.
        if bits > SIGN {
            return -1;
        }
        return 0;
    }
    floor_at(bits >= SIGN, LEADING + bits % LEADING, WHOLE - exponent)
}

// The floor of digits / 2^places, or of that below 0.
fn floor_at(negative: bool, digits: u64, places: u64) -> i64
    requires { (0 < digits) × (digits < 2 ^ 53) × (places < 64) }
    ensures { result ≡ floor_at negative digits (2 ^ places) }
{
    if negative {
        // Away from 0: one more than the whole part of what is just short of the size.
        return -1 - (((digits - 1) >> places) as i64);
    }
    (digits >> places) as i64
}

// Of a point with the floors m and n.
fn parity_by(exact: bool, i: f64, j: f64, m: i64, n: i64) -> u64
    requires { ((near i && near j) ≡ true) × (m ≡ floor i) × (n ≡ floor j) }
    ensures { result ≡ parity_in exact i j }
{
    if exact {
        return exact_parity(i, j);
    }
    parity_of(above(i, m), above(j, n))
}

// x less m, rounded once. A whole number of this size is an f64 as it is.
fn above(x: f64, m: i64) -> f64
    requires { nat_abs m ≤ 2 ^ 31 }
    ensures { result ≡ sub binary64 x (of_int binary64 m) }
{
    x - (m as f64)
}

// Whether two fractions reach the diagonal, their sum rounded once.
fn parity_of(f: f64, g: f64) -> u64
    ensures { result ≡ cond (le one (add binary64 f g)) 1 0 }
{
    if f + g >= 1.0 { 1 } else { 0 }
}

fn clamped(m: i64) -> i64
    ensures { result ≡ pos (clamped m) }
{
    m.max(0)
}

// By the floors as they are: a clamped one is never negative.
fn is_moved(m: i64, n: i64, parity: u64, last: u64) -> bool
    requires { (nat_abs m ≤ 2 ^ 31) × (nat_abs n ≤ 2 ^ 31) × (parity ≤ 1) × (last ≤ 2 ^ 30) }
    ensures { result ≡ is_moved last m n parity }
{
    m < 0 || n < 0 || m + n + parity as i64 > last as i64
}

fn last_row(resolution: u8) -> u64
    requires { resolution ≤ 30 }
    ensures { result ≡ 2 ^ resolution - 1 }
{
    (row_count(resolution) - 1) as u64
}

// What is beyond the last row comes off the parity, then off m, then off n.
fn settled(m: u64, n: u64, parity: u64, last: u64) -> Triple
    requires { (m ≤ 2 ^ 31) × (n ≤ 2 ^ 31) × (parity ≤ 1) × (last ≤ 2 ^ 30) }
    ensures { result ≡ settled last m n parity }
{
    if m + n + parity <= last {
        return cornered(m, n, parity);
    }
    if m + n <= last {
        return cornered(m, n, 0);
    }
    let excess = m + n - last;
    if excess <= m {
        return cornered(m - excess, n, 0);
    }
    cornered(0, n - (excess - m), 0)
}

fn cornered(m: u64, n: u64, parity: u64) -> Triple
    requires { m + n + parity ≤ 2 ^ 30 }
    ensures { result ≡ cornered m n parity }
{
    Triple::new(-(n as i32), (m + n + parity) as i32, -(m as i32))
}
