// Answers for a cell as a polygon in WKT, the text of the OGC's Simple Features: written into a lent
// buffer and read back. Where a cell lies is `turtle`'s; how a number is spelled is `text`'s.
//
// The format, in whole units of the lattice of corner pairs:
//
//     POLYGON ((a b, a b, a b, a b))
//
// Properties:
//
// - The three corners stand in a fixed order, and the first of them is repeated at the end.
// - A number is a decimal without leading zeros or -0. No other space, and nothing after the last
//   bracket: so a cell has one spelling.
// - At the resolutions that there are a text takes at most 106 bytes.
// - What is written is read back, and what is read is what would be written (proofs/ReadBack.antt).
#![tactic(auto)]

ghost use Rattle.std.specs.Prelude.{◌≡◌};
ghost use Rattle.triple.specs.Lent.{count_of, after_call};
ghost use Rattle.polygon.specs.Polygons.{wkt_of, cell_of_wkt};
ghost use Rattle.triple.specs.Refusals.{said};

use reading::cell_spelled;
use spelling::spell;
use text::put::put_bytes;
use triple::Triple;
use triple::refusal::Refusal;

mod corners;
mod reading;
mod spelling;

// Writes the polygon of a triple's cell at the front of a buffer. It is spelled aside first: a refused
// call leaves the buffer as it was. The tests of a cell are those that its flavor makes.
pub fn write(resolution: u8, t: Triple, out: &mut [u8]) -> Result<usize, Refusal>
    ensures { (said result ≡ count_of (wkt_of resolution t) out.old) × (out.new ≡ after_call (wkt_of resolution t) out.old) }
{
    t.flavor(resolution)?;
    // Stays a buffer and its length: no heap. It is read as a slice at once.
    let mut text = [0u8; 110];
    let n = spell(&mut text, t);
    let end = put_bytes(out, 0, &text[..n]);
    if end > out.len() {
        return Err(Refusal::Room);
    }
    Ok(end)
}

// Reads the triple whose polygon a text is.
pub fn read(resolution: u8, text: &[u8]) -> Result<Triple, Refusal>
    ensures { said result ≡ cell_of_wkt resolution text.now }
{
    if resolution > Triple::GREATEST_RESOLUTION {
        return Err(Refusal::Resolution);
    }
    let spelled = cell_spelled(text);
    let Some(t) = spelled else {
        return Err(Refusal::Polygon);
    };
    if !t.in_bounds(resolution) {
        return Err(Refusal::Bounds);
    }
    Ok(t)
}
