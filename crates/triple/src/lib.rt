// Answers for the triple that names a cell of the lattice: its sum, parity, bounds and flavor; for
// the domain of resolutions and orientations, and how each orientation's curve is drawn; and for the
// refusals' numbers, which every crate above uses. Where a triple's cell lies on the plane is
// `turtle`'s; which position names it is `lsystem`'s.
#![tactic(auto)]

ghost use Rattle.std.specs.Prelude.{◌≡◌, ◌&&◌, ◌≤◌, leb};
ghost use Rattle.triple.specs.Domain.{greatest_resolution};
ghost use Rattle.triple.specs.Triples.{sum_of, max_row, is_in_bounds, parity_of, color_of, flavor_of};
ghost use Rattle.triple.specs.Refusals.{said};

use domain::row_count;
use refusal::Refusal;

pub mod domain;
pub mod orientation;
pub mod refusal;

// A cell of the triangular lattice. Neighbors differ by 1 in one coordinate. Any three i32 may
// stand here: whether they name a cell, and at which resolutions, is what the methods tell.
#[derive(Clone, Copy)]
pub struct Triple {
    pub x: i32,
    pub y: i32,
    pub z: i32,
}

impl Triple {
    pub const GREATEST_RESOLUTION: u8 = 30;

    pub fn new(x: i32, y: i32, z: i32) -> Self
        ensures { result ≡ record { x = x; y = y; z = z } }
    {
        Self { x, y, z }
    }

    // x + y + z, which three i32 can take out of their own range.
    pub fn sum(self) -> i64
        ensures { result ≡ sum_of self }
    {
        (self.x as i64) + (self.y as i64) + (self.z as i64)
    }

    // The sum, where it is 0 or 1.
    pub fn parity(self) -> Result<u8, Refusal>
        ensures { said result ≡ parity_of self }
    {
        let s = self.sum();
        if s < 0 || s > 1 {
            return Err(Refusal::Sum);
        }
        Ok(s as u8)
    }

    // Whether the triple names a cell at a resolution; there is none above the greatest.
    pub fn in_bounds(self, resolution: u8) -> bool
        ensures { result ≡ (leb resolution greatest_resolution && is_in_bounds resolution self) }
    {
        in_bounds_wide(self.x as i64, self.y as i64, self.z as i64, resolution)
    }

    // The pentagon flavor of a cell, by the closed formula.
    pub fn flavor(self, resolution: u8) -> Result<u8, Refusal>
        ensures { said result ≡ flavor_of resolution self }
    {
        if resolution > Self::GREATEST_RESOLUTION {
            return Err(Refusal::Resolution);
        }
        let p = self.parity()?;
        if !self.in_bounds(resolution) {
            return Err(Refusal::Bounds);
        }
        Ok(p + 2 * color(self, resolution))
    }
}

// The bounds of any three i64, so that a caller who works out coordinates need not see first
// whether they fit an i32. No sum wraps: each is of a number from 0 up and one from 0 down.
// That x is at least the sum less y says again that z is at most 0; of z it says so of x.
pub fn in_bounds_wide(x: i64, y: i64, z: i64, resolution: u8) -> bool
    ensures { result ≡ (leb resolution greatest_resolution && is_in_bounds resolution (record { x = x; y = y; z = z })) }
{
    if resolution > Triple::GREATEST_RESOLUTION
        || x > 0
        || z > 0
        || y < 0
        || y > max_row(resolution)
    {
        return false;
    }
    let xy = y + x;
    if xy < 0 {
        return false;
    }
    let sum = xy + z;
    sum >= 0 && sum <= 1
}

fn max_row(resolution: u8) -> i64
    requires { resolution ≤ 30 }
    ensures { result ≡ max_row resolution }
{
    row_count(resolution) - 1
}

// The color of the apex of a cell's triangle: the higher bit of its flavor.
fn color(t: Triple, resolution: u8) -> u8
    requires { resolution ≤ 30 }
    ensures { result ≡ color_of resolution t }
{
    let rows = (max_row(resolution) + 1 + (t.x as i64) + (t.z as i64)) % 2;
    // Stays a test: `u8::from` of it says no more.
    if rows == 0 { 0 } else { 1 }
}
