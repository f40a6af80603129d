// The triple whose polygon a text is, if it is one's.
ghost use Rattle.std.specs.Prelude.{◌≡◌, true, ◌≤◌};
ghost use Rattle.triple.specs.Triples.{good_sum};
ghost use Rattle.polygon.specs.Polygons.{readable, polygon_text, corner_at, parity_from, starting_at, narrow, same_text, spelled_cell};

use crate::spelling::spell;
use text::place::decimal_at;
use triple::Triple;
use turtle::AB;
use turtle::corner::narrowed;

fn corner_at(text: &[u8], at: usize) -> Option<(AB, usize)>
    ensures { readable result ≡ corner_at text.now at }
{
    if at > text.len() {
        return None;
    }
    let (a, next) = decimal_at(text, at)?;
    let (b, end) = decimal_at(text, next + 1)?;
    Some((AB::new(a, b), end))
}

fn parity_from(p: AB, q: AB) -> u8
    ensures { result ≡ parity_from p q }
{
    let b = p.b;
    let level = q.b;
    if b == level {
        return 1;
    }
    0
}

// The only triple of sum s whose cell can start at p.
fn starting_at(s: u8, p: AB) -> Option<Triple>
    requires { s ≤ 1 }
    ensures { readable result ≡ narrow (starting_at s p) }
{
    let a = p.a;
    let b = p.b;
    let sum = s as i64;
    let x = b / 4 + sum;
    let y = a / 4;
    narrowed(x, y, sum - x - y)
}

fn is_polygon(text: &[u8], t: Triple) -> bool
    requires { good_sum t ≡ true }
    ensures { result ≡ same_text text.now (polygon_text t) }
{
    let mut own = [0u8; 110];
    let n = spell(&mut own, t);
    text == &own[..n]
}

// The first two corners leave one triple, whose polygon is the text or is not: so no other spelling is
// read, whatever its numbers are.
pub(crate) fn cell_spelled(text: &[u8]) -> Option<Triple>
    ensures { readable result ≡ spelled_cell text.now }
{
    if text.len() < 10 {
        return None;
    }
    let (p, next) = corner_at(text, 10)?;
    let (q, _) = corner_at(text, next + 2)?;
    let t = starting_at(parity_from(p, q), p)?;
    if !is_polygon(text, t) {
        return None;
    }
    Some(t)
}
