// Answers for the position code: an orientation, a resolution and a position as a few bytes, written
// into a lent buffer and read back. It looks at numbers alone: which cell a position names is
// `lsystem`'s.
//
// The format at resolution r, the most significant bit first:
//
//     ooorrrrr ssssssss .. ssssssss ss000000
//
//     ooo      the orientation: 0 UV, 2 UW or 5 WV; in old codes also 1 VU, 3 WU or 4 VW
//     rrrrr    the resolution, 0 to 30
//     ss..     the position, below 4^r: two bits for each of its r digits, the highest digit first
//     00..     spare bits to the end of the byte: 0, 2, 4 or 6 of them
//
// Properties:
//
// - A code takes 1 + ceil(r / 4) bytes, 1 to 9, and its first byte tells how many.
// - Spare bits are written as zero, and a code in which one is set is refused: so a code has one
//   spelling (proofs/Canonical.antt).
// - No byte past a code is written or looked at, so codes can stand one after another.
// - What is written is read back (proofs/RoundTrip.antt).
// - VU, WU and VW run the curves of UV, UW and WV backward, and are written no more. An old code of
//   theirs is read as the same cell's place on the curve run forward, with a mark.
#![tactic(auto)]

ghost use Rattle.std.specs.Prelude.{◌≡◌, ◌++◌, ◌+◌, ◌-◌, ◌*◌, ◌/◌, ◌^◌, ◌<◌, ◌≤◌, length, get_or, drop};
ghost use Rattle.triple.specs.Lent.{count_of, after_call};
ghost use Rattle.code.specs.Codes.{value_of, all_bits, code_length, code_bytes, forward_of, reading_of, code_of, spare_of, loose_of, read_of};
ghost use Rattle.triple.specs.Refusals.{said};

use triple::domain::{domain_of, position_count};
use triple::orientation::place_from;
use triple::refusal::Refusal;

// What a code says, the count of bytes that it takes, and whether it is an old one that was turned.
#[derive(Clone, Copy)]
pub struct Reading {
    pub orientation: u8,
    pub resolution: u8,
    pub s: u64,
    pub used: usize,
    pub old: bool,
}

// Writes a code at the front of a buffer. A refused call leaves the buffer as it was.
pub fn write(orientation: u8, resolution: u8, s: u64, out: &mut [u8]) -> Result<usize, Refusal>
    ensures { (said result ≡ count_of (code_of orientation resolution s) out.old) × (out.new ≡ after_call (code_of orientation resolution s) out.old) }
{
    domain_of(orientation, resolution)?;
    if forward_of(orientation) != orientation {
        return Err(Refusal::Retired);
    }
    if s >= position_count(resolution) {
        return Err(Refusal::Position);
    }
    let used = code_length(resolution);
    let room = out.len();
    if room < used {
        return Err(Refusal::Room);
    }
    put(orientation, resolution, s, out);
    Ok(used)
}

// Reads the code at the front of some bytes.
pub fn read(bytes: &[u8]) -> Result<Reading, Refusal>
    ensures { said result ≡ read_of bytes.now }
{
    let x = read_loose(bytes)?;
    if spare_value(bytes, x.resolution) > 0 {
        return Err(Refusal::Spare);
    }
    Ok(x)
}

// The same, whatever the spare bits are, for whoever mends codes. How long a code is depends on its first byte, so that byte's
// own tests come before the one of the length.
pub fn read_loose(bytes: &[u8]) -> Result<Reading, Refusal>
    ensures { said result ≡ loose_of bytes.now }
{
    if bytes.len() == 0 {
        return Err(Refusal::Code);
    }
    let first = bytes[0];
    let (o, r) = (first / 32, first % 32);
    domain_of(o, r)?;
    let used = code_length(r);
    if bytes.len() < used {
        return Err(Refusal::Code);
    }
    let s = joined(&bytes[1..used]) >> spare_bits(r);
    Ok(reading_of(o, r, s))
}

// What a code says of a position in its own orientation.
fn reading_of(orientation: u8, resolution: u8, s: u64) -> Reading
    requires { (orientation ≤ 5) × (resolution ≤ 30) }
    ensures { result ≡ reading_of orientation resolution s }
{
    let forward = forward_of(orientation);
    let old = forward != orientation;
    Reading {
        orientation: forward,
        resolution,
        s: place_from(old, position_count(resolution), s),
        used: code_length(resolution),
        old,
    }
}

// The orientation that runs the same curve forward, read off a word.
fn forward_of(orientation: u8) -> u8
    requires { orientation ≤ 5 }
    ensures { result ≡ forward_of orientation }
{
    ((0b101_101_010_010_000_000u64 >> (3 * orientation)) % 8) as u8
}

// The count of bytes after the first.
fn position_bytes(resolution: u8) -> usize
    ensures { result ≡ (resolution + 3) / 4 }
{
    (resolution as usize + 3) / 4
}

fn code_length(resolution: u8) -> usize
    ensures { result ≡ code_length resolution }
{
    1 + position_bytes(resolution)
}

fn spare_bits(resolution: u8) -> usize
    ensures { result ≡ 8 * ((resolution + 3) / 4) - 2 * resolution }
{
    8 * position_bytes(resolution) - 2 * (resolution as usize)
}

// The spare bits of the code at the front, as a number: they are the last ones of its last byte.
fn spare_value(bytes: &[u8], resolution: u8) -> u8
    requires { (resolution ≤ 30) × (code_length resolution ≤ length bytes.now) }
    ensures { result ≡ spare_of resolution bytes.now }
{
    let last = bytes[position_bytes(resolution)];
    last % (1u8 << spare_bits(resolution))
}

fn put(orientation: u8, resolution: u8, s: u64, out: &mut [u8])
    requires { (orientation ≤ 5) × (resolution ≤ 30) × (s < 4 ^ resolution) × (code_length resolution ≤ length out.old) }
    ensures { out.new ≡ code_bytes orientation resolution s ++ drop (code_length resolution) out.old }
{
    for k in 0..code_length(resolution) {
        out[k] = code_byte(orientation, resolution, s, k);
    }
}

// Byte k of a code. Nothing is shifted out at the top: at resolution 30 the position and its spare
// bits are 64 bits, and there are never more.
fn code_byte(orientation: u8, resolution: u8, s: u64, k: usize) -> u8
    requires { (orientation ≤ 5) × (resolution ≤ 30) × (s < 4 ^ resolution) × (k < code_length resolution) }
    ensures { result ≡ get_or (code_bytes orientation resolution s) k 0 }
{
    if k == 0 {
        return orientation * 32 + resolution;
    }
    let position = s << spare_bits(resolution);
    let later = position_bytes(resolution) - k;
    ((position >> (8 * later)) % 256) as u8
}

// The number that bytes write, the most significant first.
fn joined(bytes: &[u8]) -> u64
    requires { length bytes.now ≤ 8 }
    ensures { result ≡ value_of (all_bits bytes.now) }
{
    let mut v: u64 = 0;
    for b in bytes {
        v = with_byte(v, *b);
    }
    v
}

fn with_byte(v: u64, b: u8) -> u64
    requires { v < 2 ^ 56 }
    ensures { result ≡ v * 256 + b }
{
    v * 256 + (b as u64)
}
