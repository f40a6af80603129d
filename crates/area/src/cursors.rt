// Two areas seen from a place on the curve at resolution 30, with a cursor in each: up to where an
// operation keeps all or nothing of them.
ghost use Rattle.std.specs.Prelude.{◌+◌, ◌-◌, ◌^◌, ◌<◌, ◌≤◌};
ghost use Rattle.area.specs.Inside.Cursors.{Reached, Stretched, Pieced};

use crate::operation::is_kept;
use crate::overlay::Overlay;
use triple::domain::position_count;

// One more than the positions of resolution 30: no cell ends there, so nothing is kept just before it, and
// the last run ends like any other.
pub(crate) const END: u64 = 1152921504606846977;

// Whether an area covers the positions from a place on, up to which end, and the cursor there.
#[derive(Clone, Copy)]
struct Stretch {
    inside: bool,
    end: u64,
    next: usize,
}

// The same of what an operation keeps of two.
#[derive(Clone, Copy)]
pub(crate) struct Piece {
    pub inside: bool,
    pub end: u64,
    pub i: usize,
    pub j: usize,
}

// What is before the first piece: nothing, with both cursors at the front.
pub(crate) const START: Piece = Piece {
    inside: false,
    end: 0,
    i: 0,
    j: 0,
};

fn stretch_at(a: &[u64], i: usize, place: u64) -> Stretch
    requires { Reached a.now place i × (place < 4 ^ 30 + 1) }
    ensures { Stretched a.now place i result }
{
    if a.len() - i < 2 {
        return Stretch {
            inside: false,
            end: END,
            next: i,
        };
    }
    let n = position_count((30 - a[i]) as u8);
    let first = a[i + 1] * n;
    if place < first {
        return Stretch {
            inside: false,
            end: first,
            next: i,
        };
    }
    Stretch {
        inside: true,
        end: first + n,
        next: i + 2,
    }
}

impl Overlay<'_> {
    // The piece behind another.
    pub(crate) fn piece_after(&self, last: Piece) -> Piece
        requires { Reached self.now.a.now last.end last.i × Reached self.now.b.now last.end last.j × (last.end < 4 ^ 30 + 1) }
        ensures { Pieced self.now.operation self.now.a.now self.now.b.now last.end result }
    {
        let x = stretch_at(self.a, last.i, last.end);
        let y = stretch_at(self.b, last.j, last.end);
        let inside = is_kept(self.operation, x.inside, y.inside);
        if x.end < y.end {
            return Piece {
                inside,
                end: x.end,
                i: x.next,
                j: last.j,
            };
        }
        if y.end < x.end {
            return Piece {
                inside,
                end: y.end,
                i: last.i,
                j: y.next,
            };
        }
        Piece {
            inside,
            end: x.end,
            i: x.next,
            j: y.next,
        }
    }
}
