// The corners of a triple's cell.
ghost use Rattle.std.specs.Prelude.{◌≡◌, true};
ghost use Rattle.triple.specs.Triples.{good_sum};
ghost use Rattle.polygon.specs.Polygons.{cell_corners};

use triple::Triple;
use turtle::AB;
use turtle::walk::Corners;

// By the corner sum of a triple of sum 0 or 1, A is 12 y + 8 or 12 y + 4, and B is 12 x - 4 or 12 x - 8:
// so the division by 3 that the definition has leaves 4 y and 4 x.
pub(crate) fn corners_of(t: Triple) -> Corners
    requires { good_sum t ≡ true }
    ensures { result ≡ cell_corners t }
{
    let a = 4 * (t.y as i64);
    let b = 4 * (t.x as i64);
    if t.sum() == 0 {
        return Corners {
            p: AB::new(a, b),
            q: AB::new(a + 4, b - 4),
            r: AB::new(a + 4, b),
        };
    }
    Corners {
        p: AB::new(a, b - 4),
        q: AB::new(a + 4, b - 4),
        r: AB::new(a, b),
    }
}
