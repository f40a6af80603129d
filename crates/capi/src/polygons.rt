// Cells as polygons for callers in C and Rust.
ghost use Rattle.std.specs.Prelude.{◌≡◌};
ghost use Rattle.triple.specs.Lent.{status_of, after_call, first_of, second_of};
ghost use Rattle.capi.specs.Calls.{wkt_write_call, wkt_read_call};

use crate::put::{lendable, put_count, put_triple};
use triple::Triple;

// Writes the polygon of a cell to `text`, and its length to `out`.
pub fn hb_wkt_write(resolution: u8, x: i32, y: i32, z: i32, text: &mut [u8], out: &mut [u64]) -> u8
    ensures { (result ≡ status_of (first_of (wkt_write_call resolution x y z) out.old) text.old) × (text.new ≡ after_call (first_of (wkt_write_call resolution x y z) out.old) text.old) × (out.new ≡ after_call (second_of (wkt_write_call resolution x y z) text.old) out.old) }
{
    let room = lendable(text.len(), out.len());
    let answer = polygon::write(resolution, Triple::new(x, y, z), &mut text[..room]);
    match answer {
        Ok(count) => put_count(count, out),
        Err(e) => e.number(),
    }
}

// Reads the cell whose polygon a text is: x y z.
pub fn hb_wkt_read(resolution: u8, text: &[u8], out: &mut [i32]) -> u8
    ensures { (result ≡ status_of (wkt_read_call resolution text.now) out.old) × (out.new ≡ after_call (wkt_read_call resolution text.now) out.old) }
{
    let answer = polygon::read(resolution, text);
    match answer {
        Ok(t) => put_triple(t, out),
        Err(e) => e.number(),
    }
}
