// Cells and positions of A5's curve for callers in C and Rust, and the curve drawn without tables.
ghost use Rattle.std.specs.Prelude.{◌≡◌};
ghost use Rattle.triple.specs.Lent.{status_of, after_call};
ghost use Rattle.capi.specs.Calls.{cell_call, position_call};
ghost use Rattle.sketch.specs.Drawings.{draw_call};

// The cell that a position names: x y z flavor.
#[unsafe(no_mangle)]
pub extern "C" fn hb_cell(orientation: u8, resolution: u8, s: u64, out: &mut [i32]) -> u8
    ensures { (result ≡ status_of (cell_call orientation resolution s) out.old) × (out.new ≡ after_call (cell_call orientation resolution s) out.old) }
{
    capi::cells::hb_cell(orientation, resolution, s, out)
}

// The cells of the curve in order, drawn from its rules with 1 to 6 passes: x y z flavor of each.
#[unsafe(no_mangle)]
pub extern "C" fn hb_draw(orientation: u8, resolution: u8, out: &mut [i32]) -> u8
    ensures { (result ≡ status_of (draw_call orientation resolution) out.old) × (out.new ≡ after_call (draw_call orientation resolution) out.old) }
{
    capi::cells::hb_draw(orientation, resolution, out)
}

// The position that names a cell, and the looks of its lookup: s flavor picks comparisons.
#[unsafe(no_mangle)]
pub extern "C" fn hb_position(
    orientation: u8,
    resolution: u8,
    x: i32,
    y: i32,
    z: i32,
    out: &mut [u64],
) -> u8
    ensures { (result ≡ status_of (position_call orientation resolution x y z) out.old) × (out.new ≡ after_call (position_call orientation resolution x y z) out.old) }
{
    capi::cells::hb_position(orientation, resolution, x, y, z, out)
}
