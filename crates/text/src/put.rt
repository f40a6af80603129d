// Text put at a place of a lent slice. Each function answers the place after what it put. Where that
// has no room, nothing is written and the answer is one past the slice's end, where nothing has room:
// so texts are put one after another, and the last answer says whether all of them are there.
ghost use Rattle.std.specs.Prelude.{◌≡◌, [], ◌∷◌, ◌+◌, ◌<◌, ◌≤◌, ◌^◌, length};
ghost use Rattle.std.proofs.lemmas.List.Edits.{sets};
ghost use Rattle.text.specs.Decimals.{natural, integer};
ghost use Rattle.text.specs.Patterns.{pattern};
ghost use Rattle.text.specs.Puts.{place_after, with_text, Put};
ghost use Rattle.std.specs.Int.{from_bool};
ghost use Rattle.text.specs.Inside.Putting.{led, lowest};

use crate::digits::{bits_of, natural_length, write_digits};

// The place after so many bytes.
fn place_after(room: usize, at: usize, size: usize) -> usize
    requires { room < 2 ^ 63 }
    ensures { result ≡ place_after room at size }
{
    if at > room || size > room - at {
        return room + 1;
    }
    at + size
}

// Stays a place beside what is lent, here and below: the place after each text is what these functions answer.
pub fn put(out: &mut [u8], at: usize, b: u8) -> usize
    ensures { Put out.old at (b ∷ []) out.new result }
{
    if at < out.len() {
        out[at] = b;
        return at + 1;
    }
    out.len() + 1
}

// Stays byte by byte: `copy_from_slice` calls `memmove` in callers, and the header says that the library takes memcpy and
// memset alone.
fn copy(out: &mut [u8], at: usize, text: &[u8])
    requires { at + length text.now ≤ length out.old }
    ensures { out.new ≡ with_text out.old at text.now }
{
    for k in 0..text.len() {
        out[at + k] = text[k];
    }
}

pub fn put_bytes(out: &mut [u8], at: usize, text: &[u8]) -> usize
    ensures { Put out.old at text.now out.new result }
{
    let end = place_after(out.len(), at, text.len());
    if end > out.len() {
        return end;
    }
    copy(out, at, text);
    end
}

fn write_lead(out: &mut [u8], at: usize, lead: bool, b: u8) -> usize
    requires { at < length out.old }
    ensures { (result ≡ at + from_bool lead) × (out.new ≡ sets out.old at (led lead b [])) }
{
    if lead {
        out[at] = b;
        return at + 1;
    }
    at
}

// The `count` lowest digits of n, after a space and a minus sign if they are asked for.
fn put_digits<const BASE: u64>(
    out: &mut [u8],
    at: usize,
    space: bool,
    minus: bool,
    count: usize,
    n: u64,
) -> usize
    requires { (0 < BASE) × (BASE ≤ 16) × (0 < count) × (count ≤ 20) }
    ensures { Put out.old at (led space 32 (led minus 45 (lowest BASE count n))) out.new result }
{
    let end = place_after(
        out.len(),
        at,
        usize::from(space) + usize::from(minus) + count,
    );
    if end > out.len() {
        return end;
    }
    let after_space = write_lead(out, at, space, b' ');
    let after_minus = write_lead(out, after_space, minus, b'-');
    write_digits::<BASE>(out, after_minus, count, n);
    end
}

fn put_decimal(out: &mut [u8], at: usize, space: bool, minus: bool, n: u64) -> usize
    ensures { Put out.old at (led space 32 (led minus 45 (natural n))) out.new result }
{
    put_digits::<10>(out, at, space, minus, natural_length(n), n)
}

pub fn put_natural(out: &mut [u8], at: usize, n: u64) -> usize
    ensures { Put out.old at (natural n) out.new result }
{
    put_decimal(out, at, false, false, n)
}

pub fn put_integer(out: &mut [u8], at: usize, z: i64) -> usize
    ensures { Put out.old at (integer z) out.new result }
{
    put_decimal(out, at, false, z < 0, z.unsigned_abs())
}

// A space, and then a number.
pub fn put_next_natural(out: &mut [u8], at: usize, n: u64) -> usize
    ensures { Put out.old at (32 ∷ natural n) out.new result }
{
    put_decimal(out, at, true, false, n)
}

pub fn put_next_integer(out: &mut [u8], at: usize, z: i64) -> usize
    ensures { Put out.old at (32 ∷ integer z) out.new result }
{
    put_decimal(out, at, true, z < 0, z.unsigned_abs())
}

// The pattern of a float, after a space if one is asked for.
fn put_pattern(out: &mut [u8], at: usize, space: bool, x: f64) -> usize
    ensures { Put out.old at (led space 32 (pattern x)) out.new result }
{
    put_digits::<16>(out, at, space, false, 16, bits_of(x))
}

pub fn put_float(out: &mut [u8], at: usize, x: f64) -> usize
    ensures { Put out.old at (pattern x) out.new result }
{
    put_pattern(out, at, false, x)
}

pub fn put_next_float(out: &mut [u8], at: usize, x: f64) -> usize
    ensures { Put out.old at (32 ∷ pattern x) out.new result }
{
    put_pattern(out, at, true, x)
}
