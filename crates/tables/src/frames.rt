// A state's children in its frame: where each starts, and its footprint there.
ghost use Rattle.std.specs.Prelude.{◌≡◌, map, ◌<◌};
ghost use Rattle.turtle.specs.Plane.{◌⊕◌, signed, flipped};
ghost use Rattle.turtle.specs.Inside.Sizes.{Small};
ghost use Rattle.classifier.specs.Shapes.{point_of, placed_corners, polygons_of};
ghost use Rattle.grammar.specs.Texts.{lines_of};
ghost use Rattle.grammar.specs.Curves.{net, letter_of};
ghost use Rattle.tables.specs.Classifier.{placed_hull, polygons};
ghost use Rattle.tables.specs.Inside.Frames.{starts};

use crate::Child;
use crate::accepted::{Grammar, State};
use crate::leaves::corner_of;
use classifier::hulls::hull_of;
use classifier::{Corner, Placed};
use turtle::AB;

pub(crate) fn flipped(f: bool, g: bool) -> bool
    ensures { result ≡ flipped f g }
{
    f != g
}

fn point_of(c: Corner) -> AB
    ensures { result ≡ point_of c }
{
    AB::new(i64::from(c.a), i64::from(c.b))
}

fn sum_of(p: AB, q: AB) -> AB
    requires { Small 64 p × Small 32 q }
    ensures { result ≡ p ⊕ q }
{
    AB::new(p.a + q.a, p.b + q.b)
}

// p, or its opposite.
fn signed(flip: bool, p: AB) -> AB
    requires { Small 96 p }
    ensures { result ≡ signed flip p }
{
    if flip { AB::new(-p.a, -p.b) } else { p }
}

impl Grammar<'_> {
    // How far it is from where a child starts to where the next one does.
    fn stride(&self, child: Child) -> AB
        requires { child.token < self.now.source.count }
        ensures { (result ≡ signed child.flip (net (lines_of self.now.text.now) 1 (letter_of (lines_of self.now.text.now) child.token))) × Small 32 result }
    {
        let drawn = self.leaves(child.token, false);
        signed(child.flip, point_of(drawn.end))
    }

    // A child's footprint, from where it starts.
    fn placed(&self, child: Child, at: Corner, flip: bool) -> Placed
        requires { child.token < self.now.source.count }
        ensures { placed_corners result ≡ placed_hull (lines_of self.now.text.now) child (point_of at) flip }
    {
        let drawn = self.leaves(child.token, false);
        Placed {
            hull: hull_of(drawn.corners),
            at,
            flip: flipped(flip, child.flip),
        }
    }
}

impl State<'_> {
    // Where the children start in the state's frame.
    pub(crate) fn starts(&self) -> [Corner; 4]
        ensures { map point_of result ≡ starts (lines_of self.now.grammar.now.text.now) self.now.token self.now.flip }
    {
        let mut starts = [Corner { a: 0, b: 0 }; 4];
        let mut at = AB::new(0, 0);
        for d in 0..3 {
            at = sum_of(at, self.grammar.stride(self.children[d]));
            starts[d + 1] = corner_of(signed(self.flip, at));
        }
        starts
    }

    pub(crate) fn family(&self, at: [Corner; 4]) -> [Placed; 4]
        requires { map point_of at ≡ starts (lines_of self.now.grammar.now.text.now) self.now.token self.now.flip }
        ensures { polygons_of result ≡ polygons (lines_of self.now.grammar.now.text.now) self.now.token self.now.flip }
    {
        // Stays four calls: with array::from_fn the proof of what it asks at each index did not close; a loop has to fill the array with other footprints first.
        let first = self.grammar.placed(self.children[0], at[0], self.flip);
        let second = self.grammar.placed(self.children[1], at[1], self.flip);
        let third = self.grammar.placed(self.children[2], at[2], self.flip);
        let fourth = self.grammar.placed(self.children[3], at[3], self.flip);
        [first, second, third, fourth]
    }
}
