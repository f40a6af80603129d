// Points and corner sums for callers in C and Rust.
ghost use Rattle.std.specs.Prelude.{◌≡◌};
ghost use Rattle.triple.specs.Lent.{status_of, after_call};
ghost use Rattle.capi.specs.Calls.{point_call, exact_point_call, corner_call, triple_call};

use crate::put::{put_pair, put_point, put_triple};
use triple::Triple;
use turtle::AB;

// The cell that a point falls in, and whether it was moved to come into bounds: x y z moved.
pub fn hb_point(i: f64, j: f64, resolution: u8, out: &mut [i32]) -> u8
    ensures { (result ≡ status_of (point_call i j resolution) out.old) × (out.new ≡ after_call (point_call i j resolution) out.old) }
{
    let answer = curve::round_to_triple(i, j, resolution);
    match answer {
        Ok(p) => put_point(p, out),
        Err(e) => e.number(),
    }
}

// The same by exact fractions: x y z moved.
pub fn hb_point_exact(i: f64, j: f64, resolution: u8, out: &mut [i32]) -> u8
    ensures { (result ≡ status_of (exact_point_call i j resolution) out.old) × (out.new ≡ after_call (exact_point_call i j resolution) out.old) }
{
    let answer = curve::round_exactly(i, j, resolution);
    match answer {
        Ok(p) => put_point(p, out),
        Err(e) => e.number(),
    }
}

// The corner sum of a triple's cell: a b.
pub fn hb_corner_sum(x: i32, y: i32, z: i32, out: &mut [i64]) -> u8
    ensures { (result ≡ status_of (corner_call x y z) out.old) × (out.new ≡ after_call (corner_call x y z) out.old) }
{
    let answer = turtle::corner::corner_sum(Triple::new(x, y, z));
    match answer {
        Ok(p) => put_pair(p, out),
        Err(e) => e.number(),
    }
}

// The triple whose cell has a corner sum: x y z.
pub fn hb_triple(a: i64, b: i64, out: &mut [i32]) -> u8
    ensures { (result ≡ status_of (triple_call a b) out.old) × (out.new ≡ after_call (triple_call a b) out.old) }
{
    let answer = AB::new(a, b).to_triple();
    match answer {
        Ok(t) => put_triple(t, out),
        Err(e) => e.number(),
    }
}
