// The text of a cell's polygon, piece by piece.
ghost use Rattle.std.specs.Prelude.{◌≡◌, true, ◌++◌, ◌+◌, ◌≤◌, length};
ghost use Rattle.triple.specs.Triples.{good_sum};
ghost use Rattle.text.specs.Puts.{Put};
ghost use Rattle.polygon.specs.Polygons.{corner_text, polygon_text};
ghost use Rattle.polygon.specs.Inside.Sizes.{TenDigits, two_corners, rest_text};

use crate::corners::corners_of;
use text::put::{put_bytes, put_integer, put_next_integer};
use triple::Triple;
use turtle::AB;

// A number takes at most 11 bytes: so a corner at most 23, and a polygon at most 110.
// Stays with the size in the contracts: a pair with a type of its own would be made of four corners, for one use each.
fn put_corner(out: &mut [u8], at: usize, lead: &[u8], p: AB) -> usize
    requires { TenDigits p × (at + (length lead.now + 23) ≤ length out.old) }
    ensures { Put out.old at (lead.now ++ corner_text p) out.new result }
{
    let a = p.a;
    let b = p.b;
    let after_lead = put_bytes(out, at, lead);
    let after_a = put_integer(out, after_lead, a);
    put_next_integer(out, after_a, b)
}

// A polygon's text up to its second corner, at a slice's front.
fn put_two(out: &mut [u8], p: AB, q: AB) -> usize
    requires { TenDigits p × TenDigits q × (58 ≤ length out.old) }
    ensures { Put out.old 0 (two_corners p q) out.new result }
{
    let first = put_corner(out, 0, b"POLYGON ((", p);
    put_corner(out, first, b", ", q)
}

// The rest of it: the third corner, and the first again.
fn put_rest(out: &mut [u8], at: usize, r: AB, p: AB) -> usize
    requires { TenDigits r × TenDigits p × (at + 52 ≤ length out.old) }
    ensures { Put out.old at (rest_text r p) out.new result }
{
    let third = put_corner(out, at, b", ", r);
    let again = put_corner(out, third, b", ", p);
    put_bytes(out, again, b"))")
}

// The polygon of a triple's cell, at a slice's front.
pub(crate) fn spell(out: &mut [u8], t: Triple) -> usize
    requires { (good_sum t ≡ true) × (110 ≤ length out.old) }
    ensures { Put out.old 0 (polygon_text t) out.new result }
{
    let c = corners_of(t);
    let second = put_two(out, c.p, c.q);
    put_rest(out, second, c.r, c.p)
}
