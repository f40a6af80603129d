// Cells as polygons for callers in C and Rust.
ghost use Rattle.std.specs.Prelude.{◌≡◌};
ghost use Rattle.triple.specs.Lent.{status_of, after_call, first_of, second_of};
ghost use Rattle.capi.specs.Calls.{wkt_write_call, wkt_read_call};

// Writes the polygon of a cell to `text`, and its length to `out`.
#[unsafe(no_mangle)]
pub extern "C" fn hb_wkt_write(
    resolution: u8,
    x: i32,
    y: i32,
    z: i32,
    text: &mut [u8],
    out: &mut [u64],
) -> u8
    ensures { (result ≡ status_of (first_of (wkt_write_call resolution x y z) out.old) text.old) × (text.new ≡ after_call (first_of (wkt_write_call resolution x y z) out.old) text.old) × (out.new ≡ after_call (second_of (wkt_write_call resolution x y z) text.old) out.old) }
{
    capi::polygons::hb_wkt_write(resolution, x, y, z, text, out)
}

// Reads the cell whose polygon a text is: x y z.
#[unsafe(no_mangle)]
pub extern "C" fn hb_wkt_read(resolution: u8, text: &[u8], out: &mut [i32]) -> u8
    ensures { (result ≡ status_of (wkt_read_call resolution text.now) out.old) × (out.new ≡ after_call (wkt_read_call resolution text.now) out.old) }
{
    capi::polygons::hb_wkt_read(resolution, text, out)
}
