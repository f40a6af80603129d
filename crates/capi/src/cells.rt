// Cells and positions of A5's curve for callers in C and Rust, and the curve drawn without tables.
ghost use Rattle.std.specs.Prelude.{◌≡◌};
ghost use Rattle.triple.specs.Lent.{status_of, after_call};
ghost use Rattle.capi.specs.Calls.{cell_call, position_call};
ghost use Rattle.sketch.specs.Drawings.{draw_call};

use crate::put::{put_cell, put_position};
use triple::Triple;

// The cell that a position names: x y z flavor.
pub fn hb_cell(orientation: u8, resolution: u8, s: u64, out: &mut [i32]) -> u8
    ensures { (result ≡ status_of (cell_call orientation resolution s) out.old) × (out.new ≡ after_call (cell_call orientation resolution s) out.old) }
{
    let answer = lsystem::cell::s_to_cell(orientation, resolution, s);
    match answer {
        Ok(c) => put_cell(c, out),
        Err(e) => e.number(),
    }
}

// The cells of the curve in order, drawn from its rules with 1 to 6 passes: x y z flavor of each.
pub fn hb_draw(orientation: u8, resolution: u8, out: &mut [i32]) -> u8
    ensures { (result ≡ status_of (draw_call orientation resolution) out.old) × (out.new ≡ after_call (draw_call orientation resolution) out.old) }
{
    let answer = sketch::draw(orientation, resolution, out);
    match answer {
        Ok(_) => 0,
        Err(e) => e.number(),
    }
}

// The position that names a cell, and the looks of its lookup: s flavor picks comparisons.
pub fn hb_position(orientation: u8, resolution: u8, x: i32, y: i32, z: i32, out: &mut [u64]) -> u8
    ensures { (result ≡ status_of (position_call orientation resolution x y z) out.old) × (out.new ≡ after_call (position_call orientation resolution x y z) out.old) }
{
    let answer = lsystem::lookup::triple_to_s(orientation, resolution, Triple::new(x, y, z));
    match answer {
        Ok(l) => put_position(l, out),
        Err(e) => e.number(),
    }
}
