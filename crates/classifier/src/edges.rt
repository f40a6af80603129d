// A child's footprint where it stands: its corners, the lines through its edges, and the side of a
// line that it is on.
ghost use Rattle.std.specs.Prelude.{◌≡◌, map, ◌<◌, length, get_or};
ghost use Rattle.turtle.specs.Inside.Sizes.{Within};
ghost use Rattle.turtle.specs.Plane.{origin, ◌⊕◌, signed, thrice};
ghost use Rattle.classifier.specs.Splits.{line_through, value, over, under};
ghost use Rattle.classifier.specs.Shapes.{point_of, points_of, placed_corners};
ghost use Rattle.classifier.specs.Inside.Sets.{tripled, edge_at};

use crate::{Corner, Hull, Placed, Separator};
use std::marker::Model;

impl Hull {
    // Its corners, without the places behind them.
    pub(crate) fn points(&self) -> &[Corner]
        ensures { map point_of result.now ≡ points_of self.now }
    {
        let n = self.count.min(24);
        &self.corners[..n]
    }
}

// A coordinate at its place, three times as large.
fn tripled(at: i8, flip: bool, x: i8) -> i64
    ensures { (result ≡ tripled flip at x) × Within 768 result }
{
    let a = at as i64;
    let b = x as i64;
    if flip { 3 * a - 3 * b } else { 3 * a + 3 * b }
}

// A corner of a footprint where it stands, three times as large: it reaches no further than 768.
#[derive(Clone, Copy)]
struct Spot {
    a: i64,
    b: i64,
}

impl Model for Spot {
    ghost use Rattle.turtle.specs.declared.AB.{AB};
    ghost use Rattle.turtle.specs.Plane.{ab};
    ghost use Rattle.classifier.specs.Inside.Sets.{Close};

    ghost Value = { AB };

    ghost view = { λ p. ab p.a p.b };

    ghost invariant = { λ p. Close (ab p.a p.b) };

    ghost inverse = { λ p. record { a = p.a; b = p.b } };
}

impl Separator {
    // The line through two corners.
    fn through(p: Spot, q: Spot) -> Separator
        ensures { result ≡ line_through p q }
    {
        let a = p.a;
        let b = p.b;
        let x = q.b - b;
        let y = -(q.a - a);
        let c = -(x * a + y * b);
        Separator {
            x: x as i32,
            y: y as i32,
            c: c as i32,
        }
    }

    // Above 0 on one side of the line, below 0 on the other.
    fn value(self, p: Spot) -> i64
        ensures { result ≡ value self p }
    {
        let x = self.x as i64;
        let y = self.y as i64;
        let c = self.c as i64;
        x * p.a + y * p.b + c
    }
}

impl Placed {
    pub(crate) fn corner_count(&self) -> usize
        ensures { result ≡ length (placed_corners self.now) }
    {
        self.hull.points().len()
    }

    // Where a point of its hull stands.
    fn place(&self, p: Corner) -> Spot
        ensures { result ≡ thrice (point_of self.now.at) ⊕ thrice (signed self.now.flip (point_of p)) }
    {
        Spot {
            a: tripled(self.at.a, self.flip, p.a),
            b: tripled(self.at.b, self.flip, p.b),
        }
    }

    fn corner(&self, i: usize) -> Spot
        requires { i < length (placed_corners self.now) }
        ensures { result ≡ get_or (placed_corners self.now) i origin }
    {
        self.place(self.hull.points()[i])
    }

    // The edge from a corner to the next, and from the last to the first.
    pub(crate) fn edge(&self, i: usize) -> Separator
        requires { i < length (placed_corners self.now) }
        ensures { result ≡ edge_at (placed_corners self.now) i }
    {
        let n = self.corner_count();
        let next = if i + 1 < n { i + 1 } else { 0 };
        Separator::through(self.corner(i), self.corner(next))
    }

    // Stays two functions, this and the next: each is one chain, as `over` and `under` of specs/Splits
    // are, and a test handed in would say no less.
    pub(crate) fn is_over(&self, s: Separator) -> bool
        ensures { result ≡ over s (placed_corners self.now) }
    {
        self.hull
            .points()
            .iter()
            .all(|p| s.value(self.place(*p)) >= 0)
    }

    pub(crate) fn is_under(&self, s: Separator) -> bool
        ensures { result ≡ under s (placed_corners self.now) }
    {
        self.hull
            .points()
            .iter()
            .all(|p| s.value(self.place(*p)) <= 0)
    }
}
