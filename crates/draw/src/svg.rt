// The picture as text: a triangle for each cell in the color of its flavor, the curve through their middles, and
// its beginning marked. Its numbers are whole, in thirds of the lattice's units, where a cell's middle is its
// corner sum; one matrix brings them onto the plane.
ghost use Rattle.std.specs.Prelude.{◌≤◌};

use lines::print;
use text::put::{put_bytes, put_integer, put_natural, put_next_integer};
use triple::Triple;
use triple::domain::position_count;

// The page, as far as it is put and not yet written. Where it has no room for what is put, or could not be written, the
// place is past its end, where nothing more is put or written.
#[derive(Drop)]
struct Page<'a, 'b, P> {
    rt: &'a P,
    out: &'b mut [u8],
    at: usize,
}

impl<P: Print + Eprint> Page<'_, '_, P> {
    fn text(&mut self, text: &str) {
        self.at = put_bytes(self.out, self.at, text.as_bytes());
    }

    fn natural(&mut self, n: u64) {
        self.at = put_natural(self.out, self.at, n);
    }

    fn integer(&mut self, z: i64) {
        self.at = put_integer(self.out, self.at, z);
    }

    // A space, and then a number.
    fn next_integer(&mut self, z: i64) {
        self.at = put_next_integer(self.out, self.at, z);
    }

    // With room for what is put for one cell.
    fn make_room(&mut self) {
        if self.at <= self.out.len() && self.out.len() - self.at < 128 {
            self.write();
        }
    }

    // Writes what is put. Where that fails it is said.
    fn write(&mut self) {
        let (at, n) = (self.at, self.out.len());
        if at <= n {
            self.at = if print(self.rt, &self.out[..at]) {
                0
            } else {
                n + 1
            };
        }
    }
}

const PAGE: &str =
    r##"<svg xmlns="http://www.w3.org/2000/svg" viewBox="0 0 960 900" width="960" height="900" font-family="DejaVu Sans, Verdana, sans-serif" font-size="16" fill="#20262e">
<title>"##;

// The colors, those of docs/pictures. Where strokes can be kept from the matrix they are.
const STYLE: &str = r##"</title>
<style>
.f0{fill:#cfe3f7}.f1{fill:#fbe3b4}.f2{fill:#d5edcf}.f3{fill:#f3d0d6}
path{stroke:#8a94a0;stroke-width:.08%;stroke-linejoin:round}
.wedge{fill:none;stroke:#20262e;stroke-width:.2%}
.curve{fill:none;stroke:#b3312c;stroke-width:.26%}
.first{stroke:#b3312c;stroke-width:1.4%;stroke-linecap:round}
@supports(vector-effect:non-scaling-stroke){path{vector-effect:non-scaling-stroke;stroke-width:.8px}.wedge{stroke-width:1.6px}.curve{stroke-width:2.2px}.first{stroke-width:12px}}
</style>
<rect width="960" height="900" fill="#ffffff"/>
<text x="40" y="52" font-size="22" font-weight="bold">"##;

// The letters of the wedge's corners, and what the colors and the dot say.
const LEGEND: &str = r##"</text>
<text x="480" y="84" text-anchor="middle">U</text>
<text x="890" y="796">V</text>
<text x="70" y="796" text-anchor="end">W</text>
<text x="80" y="852">flavor</text>
<path class="f0" d="M150 836h20v20h-20z"/>
<text x="178" y="852">0</text>
<path class="f1" d="M210 836h20v20h-20z"/>
<text x="238" y="852">1</text>
<path class="f2" d="M270 836h20v20h-20z"/>
<text x="298" y="852">2</text>
<path class="f3" d="M330 836h20v20h-20z"/>
<text x="358" y="852">3</text>
<path class="first" d="M420 846h0"/>
<text x="434" y="852">the first cell</text>
"##;

fn name_of(orientation: u8) -> &'static str {
    match orientation {
        0 => "UV",
        1 => "VU",
        2 => "UW",
        3 => "WU",
        4 => "VW",
        _ => "WV",
    }
}

// The orientation, the passes and how many cells they draw.
fn put_title<P: Print + Eprint>(page: &mut Page<'_, '_, P>, orientation: u8, passes: u8) {
    page.text("A5's curve ");
    page.text(name_of(orientation));
    page.text(", ");
    page.natural(passes as u64);
    page.text(if passes == 1 { " pass: " } else { " passes: " });
    page.natural(position_count(passes));
    page.text(" cells");
}

// How many rows the wedge has: 2^passes.
fn rows_of(passes: u8) -> u64
    ensures { result ≤ 64 }
{
    match passes {
        1 => 2,
        2 => 4,
        3 => 8,
        4 => 16,
        5 => 32,
        _ => 64,
    }
}

// The wedge's own place on the page, of so many rows, and the matrix.
fn put_place<P: Print + Eprint>(page: &mut Page<'_, '_, P>, rows: u64)
    requires { rows ≤ 64 }
{
    page.text(
        "<svg x=\"80\" y=\"90\" width=\"800\" height=\"800\" overflow=\"visible\" viewBox=\"-",
    );
    page.natural(6 * rows);
    page.text(" 0 ");
    page.natural(12 * rows);
    page.text(" ");
    page.natural(12 * rows);
    page.text("\">\n<g transform=\"matrix(.5 .866025 1 0 0 0)\">\n");
}

// The edge of the wedge.
fn put_edge<P: Print + Eprint>(page: &mut Page<'_, '_, P>, rows: u64)
    requires { rows ≤ 64 }
{
    page.text("<path class=\"wedge\" d=\"M0 0H");
    page.natural(12 * rows);
    page.text("V-");
    page.natural(12 * rows);
    page.text("z\"/>\n");
}

// A cell's triangle. Where the triple's sum is 0 its corners are p, p + (12, -12) and p + (12, 0), from
// p = (12y, 12x); else q, q + (12, 0) and q + (0, 12), from q = (12y, 12x - 12).
fn put_triangle<P: Print + Eprint>(page: &mut Page<'_, '_, P>, t: Triple, flavor: i32) {
    let (a, b) = (12 * t.y as i64, 12 * t.x as i64);
    page.text("<path class=\"f");
    page.integer(flavor as i64);
    page.text("\" d=\"M");
    page.integer(a);
    if t.sum() == 0 {
        page.next_integer(b);
        page.text("l12-12v12z\"/>\n");
    } else {
        page.next_integer(b - 12);
        page.text("h12l-12 12z\"/>\n");
    }
}

// Its middle, the corner sum: (12y + 8, 12x - 4), or (12y + 4, 12x - 8).
fn put_middle<P: Print + Eprint>(page: &mut Page<'_, '_, P>, t: Triple) {
    let less = if t.sum() == 0 { 4 } else { 8 };
    page.next_integer(12 * t.y as i64 + (12 - less));
    page.next_integer(12 * t.x as i64 - less);
}

// What is put for each cell, in their order. A cell is four entries: its triple and its flavor.
fn put_each<P: Print + Eprint, F: Fn(&mut Page<'_, '_, P>, Triple, i32)>(
    page: &mut Page<'_, '_, P>,
    cells: &[i32],
    put: F,
)
    requires { F.IsAlwaysCallable put }
{
    for cell in cells.chunks_exact(4) {
        if let [x, y, z, flavor] = cell {
            page.make_room();
            put(page, Triple::new(*x, *y, *z), *flavor);
        }
    }
}

// The whole picture.
pub(crate) fn print_picture<P: Print + Eprint>(rt: &P, orientation: u8, passes: u8, cells: &[i32]) {
    let mut out = [0u8; 65536];
    let mut page = Page {
        rt,
        out: &mut out,
        at: 0,
    };
    let rows = rows_of(passes);
    page.text(PAGE);
    put_title(&mut page, orientation, passes);
    page.text(STYLE);
    put_title(&mut page, orientation, passes);
    page.text(LEGEND);
    put_place(&mut page, rows);
    put_each(
        &mut page,
        cells,
        |page, t, flavor| put_triangle(page, t, flavor),
    );
    put_edge(&mut page, rows);
    page.text("<path class=\"curve\" d=\"M");
    put_each(&mut page, cells, |page, t, _| put_middle(page, t));
    page.text("\"/>\n<path class=\"first\" d=\"M");
    if let [x, y, z, ..] = cells {
        put_middle(&mut page, Triple::new(*x, *y, *z));
    }
    page.text("h0\"/>\n</g>\n</svg>\n</svg>\n");
    page.write();
}
