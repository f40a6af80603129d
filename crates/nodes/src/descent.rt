// From position to place: the descent over A5's table by the digits of a position.
ghost use Rattle.std.specs.Prelude.{◌≡◌, ◌*◌, ◌^◌, ◌<◌, ◌≤◌};
ghost use Rattle.nodes.specs.Inside.Descents.{down, leaf_from, descended, at_origin, Room};

use crate::words::{Digit, leaf_of, step_of};
use turtle::AB;

// A state, and where its frame starts, in units of its level; or a child's, in units of its parent's frame.
// Stays with no bound on the state: `down` and `descended` of specs/ go on from a place of any, and a number with a type would be
// wrapped and taken apart again at each look.
#[derive(Clone, Copy)]
pub(crate) struct Place {
    pub a: i64,
    pub b: i64,
    pub state: u64,
}

// A cell as it is drawn: its corner sum and its flavor.
#[derive(Clone, Copy)]
pub(crate) struct Drawn {
    pub sum: AB,
    pub flavor: u8,
}

impl Place {
    // One level down, a place doubles.
    pub(crate) fn down(self, digit: Digit) -> Place
        requires { Room (2 ^ 37) 0 self }
        ensures { result ≡ down self digit.value }
    {
        let t = step_of(self.state, digit);
        Place {
            a: 2 * self.a + t.a,
            b: 2 * self.b + t.b,
            state: t.state,
        }
    }

    // The leaf of a digit: a corner sum has three corners.
    pub(crate) fn leaf(self, digit: Digit) -> Drawn
        requires { Room (2 ^ 37) 0 self }
        ensures { result ≡ leaf_from self digit.value }
    {
        let Drawn { sum, flavor } = leaf_of(self.state, digit);
        Drawn {
            sum: AB::new(3 * self.a + sum.a, 3 * self.b + sum.b),
            flavor,
        }
    }
}

// Down from a state at the origin by the digits of a place, highest first.
pub(crate) fn descend(state: u64, levels: u64, place: u64) -> Place
    requires { (state < 28) × (levels ≤ 30) }
    ensures { result ≡ descended levels (4 * place) (at_origin state) }
{
    let mut p = Place { a: 0, b: 0, state };
    for k in (0..levels).rev() {
        p = p.down(Digit::last(place >> (2 * k)));
    }
    p
}
