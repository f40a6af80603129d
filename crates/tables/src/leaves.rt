// A token's four cells: the walk along its strokes.
ghost use Rattle.std.specs.Prelude.{◌≡◌, ◌<◌, ◌*◌, length};
ghost use Rattle.turtle.specs.Plane.{facing};
ghost use Rattle.turtle.specs.Inside.Sizes.{Small};
ghost use Rattle.classifier.specs.Shapes.{point_of};
ghost use Rattle.tables.specs.Table.{flavor_number};

use crate::accepted::Grammar;
use crate::tokens::strokes_into;
use crate::{Drawn, DrawnLeaf};
use classifier::Corner;
use turtle::AB;
use turtle::walk::{Corners, DrawnCell, Stepped, Turtle, Unhosted};

// The turtle, and the first `count` cells that it drew. Each stroke takes it at most 8 further.
// Stays an array with a count: no heap. The corners stay by themselves: `hull_of` takes the twelve.
#[derive(Clone, Copy)]
struct CellWalk {
    turtle: Turtle,
    corners: [Corner; 12],
    leaves: [DrawnLeaf; 4],
    count: usize,
    ghost corners_room: { length corners ≡ 12 },
    ghost leaves_room: { length leaves ≡ 4 },
    ghost small: { Small (8 * count) turtle.at },
    ghost faces: { turtle.heading < 6 },
}

pub(crate) fn corner_of(p: AB) -> Corner
    requires { Small 120 p }
    ensures { point_of result ≡ p }
{
    Corner {
        a: p.a as i8,
        b: p.b as i8,
    }
}

fn flavor_number(flavor: Option<u8>) -> i32
    ensures { result ≡ flavor_number flavor }
{
    match flavor {
        Some(f) => i32::from(f),
        None => -1,
    }
}

fn heading_of(flip: bool) -> u8
    ensures { result ≡ facing flip }
{
    if flip { 3 } else { 0 }
}

impl CellWalk {
    ghost use Rattle.std.specs.Prelude.{◌≤◌, ◌+◌};
    ghost use Rattle.turtle.specs.declared.walk.Corners.{Corners};
    ghost use Rattle.std.specs.Prelude.{Ok};
    ghost use Rattle.turtle.specs.Plane.{origin};
    ghost use Rattle.turtle.specs.Walk.{symbol_of, symbols_of, turtle};
    ghost use Rattle.grammar.specs.Curves.{letter_count};
    ghost use Rattle.tables.specs.Inside.Leaves.{CellAdded, Hosts, CellsOnward, IsDrawn};

    fn started(flip: bool) -> CellWalk
        ensures { (result.count ≡ 0) × (result.turtle ≡ turtle origin (facing flip)) }
    {
        let heading = heading_of(flip);
        let corner = Corner { a: 0, b: 0 };
        CellWalk {
            turtle: Turtle {
                at: AB::new(0, 0),
                heading,
            },
            corners: [corner; 12],
            leaves: [DrawnLeaf {
                sum: corner,
                flavor: 0,
            }; 4],
            count: 0,
        }
    }

    // The cell that a letter draws: its corners are those that the letter hosts.
    fn with_hosted(
        mut self,
        hosted: Result<Corners, Unhosted>,
        cell: DrawnCell,
        next: Turtle,
    ) -> CellWalk
        requires { (self.count < 4) × Hosts self.turtle hosted cell next }
        ensures { (c : Corners) → hosted ≡ Ok c → CellAdded self c cell next result }
    {
        let Ok(c) = hosted else {
            return self;
        };
        let at = self.count;
        self.corners[3 * at] = corner_of(c.p);
        self.corners[3 * at + 1] = corner_of(c.q);
        self.corners[3 * at + 2] = corner_of(c.r);
        self.leaves[at] = DrawnLeaf {
            sum: corner_of(cell.sum),
            flavor: flavor_number(cell.flavor),
        };
        self.turtle = next;
        self.count = at + 1;
        self
    }

    // One byte more of the strokes.
    fn with_byte(mut self, b: u8) -> CellWalk
        requires { self.count + letter_count (symbol_of b) ≤ 4 }
        ensures { CellsOnward self (symbol_of b) result }
    {
        let turned = match self.turtle.step(b) {
            Stepped::Drew(cell, next) => {
                return self.with_hosted(self.turtle.corners(b), cell, next);
            }
            Stepped::Turned(next) => next,
            Stepped::NoDraw | Stepped::Lost => return self,
        };
        self.turtle = turned;
        self
    }

    // All that a walk drew.
    fn drawn(self) -> Drawn
        requires { self.count ≡ 4 }
        ensures { (result.corners ≡ self.corners) × ((result.leaves ≡ self.leaves) × (point_of result.end ≡ self.turtle.at)) }
    {
        let corners = self.corners;
        let leaves = self.leaves;
        Drawn {
            corners,
            leaves,
            end: corner_of(self.turtle.at),
        }
    }

    fn along(w: &[u8], flip: bool) -> Drawn
        requires { letter_count (symbols_of w.now) ≡ 4 }
        ensures { IsDrawn (symbols_of w.now) (turtle origin (facing flip)) result }
    {
        let mut k = CellWalk::started(flip);
        for b in w {
            k = k.with_byte(*b);
        }
        k.drawn()
    }
}

impl Grammar<'_> {
    ghost use Rattle.turtle.specs.Plane.{origin};
    ghost use Rattle.turtle.specs.Walk.{turtle};
    ghost use Rattle.grammar.specs.Texts.{lines_of};
    ghost use Rattle.grammar.specs.Curves.{letter_of, strokes};
    ghost use Rattle.tables.specs.Inside.Leaves.{IsDrawn};

    // What a token draws with one pass, at heading 0 or, flipped, at heading 3.
    pub(crate) fn leaves(&self, token: usize, flip: bool) -> Drawn
        requires { token < self.now.source.count }
        ensures { IsDrawn (strokes (lines_of self.now.text.now) 1 (letter_of (lines_of self.now.text.now) token)) (turtle origin (facing flip)) result }
    {
        let source = self.source;
        let mut word = [0u8; 288];
        let n = strokes_into(self.text, source.lines, source.bytes[token], &mut word);
        CellWalk::along(&word[..n], flip)
    }
}
